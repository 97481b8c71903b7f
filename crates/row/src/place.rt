ghost use Rattle.std.specs.Prelude.{◌≡◌, ◌<◌, [], ◌∷◌, ◌++◌, length, slice_index_or};
ghost use Rattle.std.specs.List.{remove};
ghost use Rattle.action.specs.Order.{placed, place_of};
ghost use Rattle.history.specs.Room.{Fits};
ghost use Rattle.row.specs.Sorting.{Sorted};

use action::Action;
use history::History;

/// Puts the actions at the end of the history, which has room for them.
pub fn append<H: History>(history: &mut H, actions: &[Action])
    requires { Fits (H.room history.old) (H.items history.old) actions.now }
    ensures list { H.items history.new ≡ H.items history.old ++ actions.now }
    ensures fixed { H.room history.new ≡ H.room history.old }
{
    for action in actions {
        let end = history.count();
        history.insert(end, *action).unwrap();
    }
}

// Puts the action at its place in the history, which stays sorted.
#[tactic(auto, using(crate::proofs::Sorting::placed_sorted))]
pub(crate) fn insert_in_order<H: History>(history: &mut H, action: &Action)
    requires room { Fits (H.room history.old) (H.items history.old) (action.now ∷ []) }
    requires sorted { Sorted (H.items history.old) }
    ensures sorted { Sorted (H.items history.new) }
    ensures list { H.items history.new ≡ placed (H.items history.old) action.now }
    ensures fixed { H.room history.new ≡ H.room history.old }
{
    let i = place_of(history, action);
    history.insert(i, *action).unwrap();
}

// The place after the last action that precedes this one. Most actions come in order, so the last one is looked
// at first; otherwise the place is found by halves.
fn place_of<H: History>(history: &H, action: &Action) -> usize
    requires { Sorted (H.items history.now) }
    ensures { result ≡ place_of (H.items history.now) action.now }
{
    let mut low = 0;
    let mut high = history.count();
    if high > 0 && place(history, high - 1).precedes(action) {
        return high;
    }
    while low < high {
        let middle = low + (high - low) / 2;
        if place(history, middle).precedes(action) {
            low = middle + 1;
        } else {
            high = middle;
        }
    }
    low
}

// The action at a place in use.
pub(crate) fn place<H: History>(history: &H, i: usize) -> Action
    requires { i < length (H.items history.now) }
    ensures { result ≡ slice_index_or (H.items history.now) i result }
{
    history.read(i).unwrap()
}

// Takes out the action at a place in use.
pub(crate) fn take_out<H: History>(history: &mut H, i: usize)
    requires { i < length (H.items history.old) }
    ensures list { H.items history.new ≡ remove (H.items history.old) i }
    ensures fixed { H.room history.new ≡ H.room history.old }
{
    history.remove(i).unwrap();
}
