// Answers of calls that made no store.
ghost use Rattle.std.specs.Prelude.{◌≡◌};
ghost use Rattle.refusals.specs.Refusals.{number_of};

use protocol::{Answer, State};
use refusals::Refusal;

// What a done call without stores gives.
pub fn done(state: State) -> Answer
    ensures { result ≡ record { refusal = 0; stores = 0; state = state } }
{
    Answer {
        refusal: 0,
        stores: 0,
        state,
    }
}

// "A refusal gives its number, a store count of 0, and no change in the state": of any number.
pub fn without_stores(s: State, refusal: u8) -> Answer
    ensures { result ≡ record { refusal = refusal; stores = 0; state = s } }
{
    Answer { refusal, ..done(s) }
}

// The same of a refusal. A call asks its paragraph and goes on, or gives this: two arms at each, since closures in
// their place would both borrow the area.
pub fn refused(state: State, refusal: Refusal) -> Answer
    ensures { result ≡ record { refusal = number_of refusal; stores = 0; state = state } }
{
    without_stores(state, refusal.number())
}
