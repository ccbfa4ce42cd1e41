// What no clause says: that each call succeeds where memory is ample, and what it answers of a text that was worked out by hand.

use crate::Texts;
use op_ids::{OpId, ROOT, Side, TRASH};
use std::alloc::{AllocError, Global};
use std::test::Fail;

const FIRST: OpId = OpId {
    time: 1,
    member: 0,
    index: 0,
};

const TYPED: &str = "ab\u{f6}\u{20ac}";

const ERASED: &str = "a\u{20ac}";

const LAST: OpId = OpId {
    time: 1,
    member: 0,
    index: 3,
};

// A node with a short text.
fn typed(alloc: Global, text: &str) -> Result<Texts, AllocError> {
    let mut texts = Texts::new(alloc);
    if text.len() < 1000 {
        texts.type_run(TRASH, FIRST, ROOT, Side::Right, text)?;
    }
    Ok(texts)
}

fn copy_of(alloc: Global, texts: &Texts) -> Result<Texts, AllocError> {
    let rows = texts.rows()?;
    Texts::from_rows(alloc, rows.as_slice())
}

fn place_in(texts: &Texts, left: OpId) -> Option<(OpId, Side)> {
    if texts.has(TRASH, left) {
        Some(texts.place_after(TRASH, left))
    } else {
        None
    }
}

#[test]
fn texts_are_typed_and_erased(rt: HostRuntime) -> Result<(), Fail> {
    let mut texts = typed(rt.alloc(), TYPED)?;
    assert_eq!(rt; texts.text(TRASH)?.text(), TYPED);
    assert_eq!(rt; texts.length(TRASH), 4);
    texts.erase(TRASH, FIRST.plus(1), 2);
    let copy = copy_of(rt.alloc(), &texts)?;
    for texts in [texts, copy] {
        assert_eq!(rt; texts.text(TRASH)?.text(), ERASED);
        assert_eq!(rt; texts.length(TRASH), 2);
        assert_eq!(rt; texts.id_at(TRASH, 1)?, Some(LAST));
        assert_eq!(rt; texts.id_at(TRASH, 2)?, None);
        let ids = texts.ids_from(TRASH, 0, 9)?;
        assert_eq!(rt; ids.as_slice(), [FIRST, LAST].as_slice());
        assert_eq!(rt;
            place_in(&texts, FIRST.plus(1)),
            Some((FIRST.plus(2), Side::Left))
        );
        assert_eq!(rt; place_in(&texts, LAST), Some((LAST, Side::Right)));
    }
    Ok(())
}
