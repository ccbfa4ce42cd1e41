//! The words of a command line, read from left to right.

ghost use Rattle.std.specs.Prelude.{◌≡◌, ◌++◌, ◌∷◌, [], OnOk, OnErr, IfOk, IfErr, map, slice_get, string_bytes};
ghost use Rattle.std.specs.Option.{option_map};
ghost use Rattle.outline_words.specs.Table.{FirstWrong};
ghost use Rattle.outline_words.specs.Commands.{IsGiven, AreTexts};

use crate::command::{Command, WordFault};
use crate::reading::read_command;
use crate::rest::Rest;
use std::alloc::{AllocError, Global};
use std::marker::Model;

/// The words of a command line, without the program's name.
#[derive(Debug, Drop)]
pub struct Words {
    words: Vec<String>,
}

impl Model for Words {
    ghost use Rattle.std.specs.Prelude.{List, ℕ, map, string_bytes, IsUtf8};
    ghost use Rattle.std.specs.List.{AllByRecursion};

    ghost Value = { List (List ℕ) };

    ghost view = { λ w. map string_bytes w.words.items };

    ghost invariant = { λ w. AllByRecursion IsUtf8 (map string_bytes w.words.items) };
}

impl Words {
    /// No words.
    pub fn new(alloc: Global) -> Words
        ensures { result ≡ [] }
    {
        Words {
            words: Vec::new(alloc),
        }
    }

    /// Adds a word at the end. After a refusal for want of memory the words are as before.
    pub fn push(&mut self, word: &str) -> Result<(), AllocError>
        ensures ok { OnOk result (self.new ≡ self.old ++ word.now ∷ []) }
        ensures err { OnErr result (self.new ≡ self.old) }
    {
        let alloc = *self.words.allocator();
        let word = String::from_str(alloc, word)?;
        self.words.push(word)?;
        Ok(())
    }

    /// The word at a place, counted from 0, if there is one.
    pub fn get(&self, place: usize) -> Option<&str>
        ensures { option_map (λ word. word.now) result ≡ slice_get self.now place }
    {
        self.words.get(place).map(String::as_str)
    }
}

/// The command that the words give, or their first wrong word. Takes no memory.
/// A vector keeps `alloc`, which is never asked.
pub fn read_words<'w>(alloc: Global, words: &'w Words) -> Result<Command<'w>, WordFault>
    ensures command { IfOk result (IsGiven words.now) }
    ensures wrong { IfErr result (λ fault. FirstWrong words.now fault.word) }
    // What `Words` keeps, told to the caller: each word is a text.
    ensures texts { AreTexts words.now }
{
    match words.words.as_slice() {
        [] => Err(WordFault { word: 0 }),
        [command, behind @ ..] => read_command(alloc, command.as_str(), Rest::new(behind)),
    }
}
