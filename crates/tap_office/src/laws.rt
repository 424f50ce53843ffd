//! Laws of the office, each the contract of a call that changes nothing.
ghost use Rattle.std.specs.Prelude.{◌≡◌, ℕ, ◌+◌, ◌<◌, List, length, take, Some, slice_get};
ghost use Rattle.tap_journal.specs.Layout.{Header};
ghost use Rattle.reply_book.specs.Legal.{history_of};
ghost use Rattle.tap_office.specs.Given.{IsLegalFor, IsViewFor};
ghost use Rattle.tap_office.specs.Keeper.{IsHaltedByDisk, IsLeft};
ghost use Rattle.tap_office.specs.Rounds.{Round, AreRounds, IsKeptIn};
ghost use Rattle.tap_office.specs.Files.{DoFilesDecide, DoSameFilesKeepReplies};

use crate::keeper::Keeper;
use crate::name::Named;
use oyster_account::CardView;
use tap_disk::Disk;

/// Over any list of rounds, each of them an opening, commits and a crash: what a round finds has
/// every touch that was released in an earlier one, in order and at its place. Where it was opened
/// with tables that say the same, the first one and each that these touches name, its book has each
/// with the reply that it had there, whatever other tables it was given. Tables of the same files
/// say the same: [`same_files_keep_replies`].
pub fn rounds_keep_what_was_released()
    ensures { (h : Header) (rounds : List Round) → AreRounds h rounds
        → (i j : ℕ) (earlier later : Round) → i < j → slice_get rounds i ≡ Some earlier
        → slice_get rounds j ≡ Some later → IsKeptIn h earlier later }
{}

/// A round that was opened with the same first file as an earlier one, and was given the file of
/// every table that its touches name, has each touch that was released in the earlier one with the
/// reply that it had there, whatever other files there are and in whatever order. The tables of the
/// two say the same then. No two of these files that differ have the same digest: that is what the
/// law asks for, since a revision names its table by the digest alone.
pub fn same_files_keep_replies()
    ensures tables { DoFilesDecide }
    ensures replies { DoSameFilesKeepReplies }
{}

/// What holds whenever the lock is free: the history is legal by the opening's tables, begins with
/// what was found at the opening, and is what is published; the ledger has counted what came since;
/// and the disk has the history's touches, with one new one more or without where the keeper is
/// halted, which it is only where a call of the disk has failed. What is seen of each card is said
/// by [`the_lock_keeps_views`].
pub fn the_lock_keeps<N: Named, D: Disk>(keeper: &Keeper<N, D>)
    ensures legal { IsLegalFor N.opened (history_of keeper.now.history) }
    ensures begins { take (length N.opened.recovered) keeper.now.history ≡ N.opened.recovered }
    ensures published { keeper.now.published ≡ keeper.now.history }
    ensures grown { length keeper.now.history ≡ length N.opened.recovered + keeper.now.total }
    ensures left { IsLeft D.honest D.content D.outcome N.opened.header keeper.now.history
        keeper.now.halted keeper.now.disk }
    ensures failed { IsHaltedByDisk keeper.now.halted (D.failed_calls keeper.now.disk) }
{
    let _book = &keeper.book;
}

/// And what is seen of each card then: what its touches made of it, by the opening's tables.
pub fn the_lock_keeps_views<N: Named, D: Disk>(keeper: &Keeper<N, D>, card: u32) -> CardView
    ensures { IsViewFor N.opened (history_of keeper.now.history) card result }
{
    keeper.book.view(card)
}
