// The calls of a tender, one after the other.
ghost use Rattle.std.specs.Prelude.{◌≡◌, ◌≤◌, length};
ghost use Rattle.book.specs.Model.{model_of, space};
ghost use Rattle.book.specs.Soundness.{Sound};
ghost use Rattle.book.specs.Told.{tally};
ghost use Rattle.tender_run.specs.Runs.{with_buyers, taken_of};

use super::session::Session;
use book::Book;
use stages::Open;

// Makes every call in turn, refused or not, and answers how many were accepted.
pub(crate) fn make_calls<'a>(book: &mut Book<'a>, tender: &Open, session: &Session) -> usize
    ensures few { result ≤ length session.now.calls.now }
    ensures taken { Sound (model_of book.old) → result ≡ taken_of tender.now (space book.old) session.now.buyers.now (model_of book.old) session.now.calls.now }
    ensures state { Sound (model_of book.old) → model_of book.new ≡ tally tender.now (space book.old) (model_of book.old) (with_buyers session.now.buyers.now session.now.calls.now) }
    ensures sound { Sound (model_of book.old) → Sound (model_of book.new) }
    ensures space { space book.new ≡ space book.old }
    ensures named { book.new.list.items.ghost_name ≡ book.old.list.items.ghost_name }
{
    let mut accepted = 0;
    for call in session.calls {
        let taken = book.apply(tender, *call, session.buyers).is_ok();
        accepted += usize::from(taken);
    }
    accepted
}
