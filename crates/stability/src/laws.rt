//! Laws of rows and of the changes that make them, each the contract of a function with nothing to do.

ghost use Rattle.stability.specs.Laws.{AddedMakesRow, HeadsMakeRows, NextMakesRow};

/// The rows of a base, with the heads of the kept changes taken in turn, are the rows of what is held behind it.
pub fn heads_make_rows()
    ensures { HeadsMakeRows }
{}

/// One change more behind the kept ones makes its member's row anew, and no other.
pub fn next_makes_row()
    ensures { NextMakesRow }
{}

/// So does one that is put in its place among them, where it is later than its member's last.
pub fn added_makes_row()
    ensures { AddedMakesRow }
{}
