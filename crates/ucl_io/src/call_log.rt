//! `CallLog`: the calls of a source, in a log that contracts alone see. `S`, `W` and `M` are the types of source, sink and handler.

ghost use Rattle.std.specs.Prelude.{◌≡◌, List, [], ◌∷◌, ◌++◌};
ghost use base.Fml.{ftrue};

use std::marker::{Model, PhantomData};

/// The states of a source, a sink and a handler just before each call of the source, in the order of the calls. Contracts alone see it: it
/// takes no memory, and its functions do nothing when a program runs. A `CallLog<(), (), ()>` counts calls and keeps nothing else of them.
#[derive(Drop)]
pub struct CallLog<S, W, M> {
    of: PhantomData<(S, W, M)>,
    pub ghost times: { List (S × W × M) },
}

impl<S, W, M> Model for CallLog<S, W, M> {
    ghost also_owns = { λ _. ftrue };
}

impl<S, W, M> CallLog<S, W, M> {
    /// Returns the log whose calls are the ghost argument `times`, a list that the proof builds from what `by` borrows.
    fn logged<T>(by: &T) -> CallLog<S, W, M>
        ghost times: { List (S × W × M) }
        ensures { result.times ≡ times }
    {
        let _ = by;
        CallLog { of: PhantomData }
    }

    /// Creates the log of no call.
    pub fn new() -> CallLog<S, W, M>
        ensures { result.times ≡ [] }
    {
        CallLog::logged(&())
    }

    /// Returns this log with one more call at its end, just before which source, sink and handler were as these are now.
    pub fn and(&self, source: &S, sink: &W, handler: &M) -> CallLog<S, W, M>
        ensures { result.times ≡ self.now.times ++ (source.now, sink.now, handler.now) ∷ [] }
    {
        CallLog::logged(&(self, source, sink, handler))
    }
}
