//! Boxes in a square: one from each place to each place, each with at most one item.

ghost use Rattle.std.specs.Prelude.{◌≡◌, ℕ, suc, ◌<◌, ◌^◌, None, Some, IsSome, length, slice_set, IfOk};
ghost use Rattle.std.specs.Option.{option_map};
ghost use Rattle.dsr_base.specs.Boxes.{AreSquare, empty_box, box_in, row_of, box_at, with_box, with_item, without_item};

use std::alloc::{AllocError, Global};
use std::marker::Model;

/// A box: how many items were ever put into it, and the item that it holds now; `None` while it is empty.
#[derive(Drop)]
pub struct MailBox<T> {
    posts: u64,
    item: Option<T>,
}

/// The boxes from one place to each place.
#[derive(Drop)]
pub(crate) struct Row<T> {
    boxes: Vec<MailBox<T>>,
}

impl<T> Model for Row<T> {
    ghost use Rattle.std.specs.Prelude.{List};
    ghost use Rattle.dsr_base.specs.declared.boxes.MailBox.{MailBox};

    ghost Value = { List (MailBox T) };

    ghost view = { λ r. r.boxes.items };
}

/// The boxes from each place to each place; places are counted from 0.
#[derive(Drop)]
pub struct Boxes<T> {
    rows: Vec<Row<T>>,
}

impl<T> Model for Boxes<T> {
    ghost use Rattle.std.specs.Prelude.{List};
    ghost use Rattle.dsr_base.specs.declared.boxes.MailBox.{MailBox};

    ghost Value = { List (List (MailBox T)) };

    ghost view = { λ b. b.rows.items };
}

impl<T: Drop> Row<T> {
    /// Creates the boxes to the places below `places`, all empty. An error if memory runs out.
    fn new(alloc: Global, places: usize) -> Result<Row<T>, AllocError>
        ensures count { IfOk result (λ row. length row ≡ places) }
        ensures empty { IfOk result (λ row. (to : ℕ) → box_in row to ≡ empty_box) }
    {
        let mut boxes = Vec::with_capacity(alloc, places)?;
        for _ in 0..places {
            boxes.push(MailBox {
                posts: 0,
                item: None,
            })?;
        }
        Ok(Row { boxes })
    }

    /// Puts the item into the box to this place.
    fn put(&mut self, to: usize, item: T)
        requires inside { to < length self.old }
        requires few { (box_in self.old to).posts < 2 ^ 40 }
        ensures { self.new ≡ slice_set self.old to (with_item (box_in self.old to) item) }
    {
        let posts = self.boxes[to].posts + 1;
        self.boxes[to] = MailBox {
            posts,
            item: Some(item),
        };
    }

    /// Empties the box to this place and returns its item; `None` if the box is empty already.
    fn take(&mut self, to: usize) -> Option<T>
        requires inside { to < length self.old }
        ensures item { result ≡ (box_in self.old to).item }
        ensures rest { self.new ≡ slice_set self.old to (without_item (box_in self.old to)) }
    {
        self.boxes[to].item.take()
    }
}

impl<T: Drop> Boxes<T> {
    /// Creates the boxes between the places below `places`, all empty. An error if memory runs out.
    pub fn new(alloc: Global, places: usize) -> Result<Boxes<T>, AllocError>
        ensures square { IfOk result (λ rows. AreSquare places rows) }
        ensures empty { IfOk result (λ rows. (from to : ℕ) → box_at rows from to ≡ empty_box) }
    {
        let mut rows = Vec::with_capacity(alloc, places)?;
        for _ in 0..places {
            rows.push(Row::new(alloc, places)?)?;
        }
        Ok(Boxes { rows })
    }

    /// Returns the number of items that were ever put into the box from one place to another.
    pub fn posts(&self, from: usize, to: usize) -> u64
        requires inside { from < length self.now }
        requires row { to < length (row_of self.now from) }
        ensures { result ≡ (box_at self.now from to).posts }
    {
        self.rows[from].boxes[to].posts
    }

    /// Returns the item in the box from one place to another; `None` if the box is empty.
    pub fn item(&self, from: usize, to: usize) -> Option<&T>
        requires inside { from < length self.now }
        requires row { to < length (row_of self.now from) }
        ensures { option_map (λ item. item.now) result ≡ (box_at self.now from to).item }
    {
        self.rows[from].boxes[to].item.as_ref()
    }

    /// Puts the item into the box from one place to another, and drops what the box held. Requires that fewer than 2^40 items were
    /// put there.
    pub fn put(&mut self, from: usize, to: usize, item: T)
        requires inside { from < length self.old }
        requires row { to < length (row_of self.old from) }
        requires few { (box_at self.old from to).posts < 2 ^ 40 }
        ensures { self.new ≡ with_box self.old from to (with_item (box_at self.old from to) item) }
    {
        self.rows[from].put(to, item);
    }

    /// Takes the item out of the box from one place to another. Requires that it holds one.
    pub fn take(&mut self, from: usize, to: usize) -> T
        requires inside { from < length self.old }
        requires row { to < length (row_of self.old from) }
        requires full { IsSome (box_at self.old from to).item }
        ensures item { (box_at self.old from to).item ≡ Some result }
        ensures rest { self.new ≡ with_box self.old from to (without_item (box_at self.old from to)) }
    {
        self.rows[from].take(to).unwrap()
    }
}
