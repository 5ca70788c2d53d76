ghost use Rattle.std.specs.Prelude.{◌≡◌, ◌+◌, ◌<◌};

use std::marker::Model;
use std::sync::ledger::{Blank, Book, Ledger, Share};

/// A share of a ledger that has every part of it, so that its amount is the total of the ledger's book.
///
/// Contracts see the amount. It takes no memory.
#[derive(Drop)]
pub(crate) struct Own<L: Ledger> {
    share: Share<L>,
}

impl<L: Ledger> Model for Own<L> {
    ghost use Rattle.std.specs.Prelude.{ℕ, ◌≡◌, ◌<◌};

    ghost Value = { ℕ };

    ghost view = { λ o. o.share.amount };

    ghost invariant = { λ o. (o.share.parts ≡ L.parts) × (0 < L.parts) };
}

impl<L: Ledger> Own<L> {
    /// A ledger's book and its whole share, both at this count.
    pub(crate) fn open(blank: Blank, count: u64) -> (Book<L>, Own<L>)
        requires name { blank.name ≡ L.name }
        requires parts { blank.parts ≡ L.parts }
        requires some { 0 < L.parts }
        ensures book { result.0.total ≡ count }
        ensures own { result.1 ≡ count }
    {
        let (mut book, mut share) = blank.open::<L>();
        book.add(&mut share, count);
        (book, Own { share })
    }

    /// Counts one more, in the share and in its book.
    pub(crate) fn raise(&mut self, book: &mut Book<L>)
        ensures exact { self.old ≡ book.old.total }
        ensures own { self.new ≡ self.old + 1 }
        ensures book { book.new.total ≡ book.old.total + 1 }
    {
        book.audit(&mut self.share);
        book.add(&mut self.share, 1);
    }

    /// Says that the share is what its book has. It changes neither.
    pub(crate) fn audit(&mut self, book: &mut Book<L>)
        ensures exact { self.old ≡ book.old.total }
        ensures own { self.new ≡ self.old }
        ensures book { book.new.total ≡ book.old.total }
    {
        book.audit(&mut self.share);
    }
}
