//! The machine, the snapshot protocol: a board of twelve match words, and callers that take one step at a time.

ghost use Rattle.std.specs.Prelude.{◌≡◌, ◌<◌, [], length, IfOk, IsSome};
ghost use Rattle.std.specs.Option.{option_map};
ghost use Rattle.ucl_steps.specs.declared.step.Step.TheVariants.{Begin, Look, Swap, First, Second, End};
ghost use Rattle.ucl_steps.specs.Protocol.{Collecting};
ghost use Rattle.ucl_steps.specs.Machine.{Within, initial_state, held_by, with_held, after_reply};
ghost use Rattle.ucl_steps.specs.Traces.{IsLeftBy};
ghost use Rattle.ucl_steps.specs.Running.{holds_of, state_of, IsReachable, Takes};

use crate::step::{Call, Caller, Cast, Step};
use crate::trace::{CallRecord, Reply, Trace};
use std::alloc::{AllocError, Global};
use ucl_board::{Board, Entry, Reading};
use ucl_word::{Accepted, EventCall, Refusal, next_word, number_of};

/// What a caller holds between two of its steps. `call` is the place of its call in the machine's list of calls.
#[derive(Clone, Copy)]
enum Held {
    /// The caller has no call.
    Idle,
    /// The caller has begun a report of this event.
    Wanting {
        call: usize,
        event: EventCall,
    },
    /// A report has loaded the word `old` of its match, and `new` is to take its place.
    Holding {
        call: usize,
        event: EventCall,
        old: u64,
        new: u64,
    },
    /// A reading has loaded the first `loaded` words of its first collect.
    Collecting {
        call: usize,
        words: [u64; 12],
        loaded: usize,
    },
    /// A reading has loaded all twelve words, the last when the history had `point` entries, and has found `checked` of them again.
    Checking {
        call: usize,
        words: [u64; 12],
        checked: usize,
        point: u16,
    },
    /// The call has its reply, and has not ended.
    Answered {
        call: usize,
    },
}

impl Held {
    /// Returns what a caller holds whose reading, the call at place `call` in the list of calls, has loaded no word yet.
    fn collecting(call: usize) -> Held
        ensures { holds_of result ≡ Within call (Collecting []) }
    {
        Held::Collecting {
            call,
            words: [0; 12],
            loaded: 0,
        }
    }
}

/// The machine between two steps: the match words, the history, the calls, and what each reporter and each reader holds, in the order of
/// their numbers.
#[derive(Drop)]
pub(crate) struct Machine {
    words: [u64; 12],
    history: Vec<Entry>,
    calls: Vec<CallRecord>,
    reporters: Vec<Held>,
    readers: Vec<Held>,
}

impl Machine {
    /// Creates the machine before any step, with a fresh board and the idle callers of the cast, or returns an error if out of memory.
    pub(crate) fn new(alloc: Global, cast: &Cast) -> Result<Machine, AllocError>
        ensures { IfOk result (λ machine. state_of machine ≡ initial_state cast.now) }
    {
        let reporters = vec![in alloc; Held::Idle; usize::from(cast.reporters)]?;
        let readers = vec![in alloc; Held::Idle; usize::from(cast.readers)]?;
        Ok(Machine {
            words: Board::fresh().words(),
            history: Vec::new(alloc),
            calls: Vec::new(alloc),
            reporters,
            readers,
        })
    }

    /// Returns what a run leaves: the machine's history, its list of calls, and the match words after the last step.
    pub(crate) fn into_trace(self) -> Trace
        ensures { IsLeftBy (state_of self) result }
    {
        let Machine {
            words,
            history,
            calls,
            reporters: _,
            readers: _,
        } = self;
        Trace {
            history,
            calls,
            words,
        }
    }

    /// Takes the step and returns true, or changes nothing and returns false if it is not enabled. Returns an error if out of memory.
    pub(crate) fn take(&mut self, step: &Step) -> Result<bool, AllocError>
        requires { IsReachable (state_of self.old) }
        ensures { IfOk result
            (λ taken. Takes (state_of self.old) step.now taken (state_of self.new)) }
    {
        match step {
            Step::Begin(caller, call) => self.begin(*caller, *call),
            Step::Look(caller) => Ok(self.look(*caller)),
            Step::Swap(caller) => self.swap(*caller),
            Step::First(caller) => Ok(self.first(*caller)),
            Step::Second(caller) => Ok(self.second(*caller)),
            Step::End(caller) => Ok(self.end(*caller)),
        }
    }

    /// Takes the step `Begin`: an idle caller begins a call, if it may. Returns false if the step is not enabled, and an error if out of
    /// memory.
    fn begin(&mut self, caller: Caller, call: Call) -> Result<bool, AllocError>
        requires { IsReachable (state_of self.old) }
        ensures { IfOk result
            (λ taken. Takes (state_of self.old) (Begin caller call) taken (state_of self.new)) }
    {
        let held = self.held(&caller);
        let Some(Held::Idle) = &held else {
            return Ok(false);
        };
        let place = self.calls.len();
        let next = match &call {
            Call::Event(event) => match &caller {
                Caller::Reader(_) => return Ok(false),
                Caller::Reporter(_) => Held::Wanting {
                    call: place,
                    event: *event,
                },
            },
            Call::Reading => Held::collecting(place),
        };
        let begun = self.now();
        self.calls.push(CallRecord {
            caller,
            call,
            begun,
            point: None,
            reply: None,
            ended: None,
        })?;
        self.hold(caller, next);
        Ok(true)
    }

    /// Takes the step `Look`: a reporter loads the word of its match, and the rules refuse the event or say which word is to come next.
    /// Returns false if the step is not enabled.
    fn look(&mut self, caller: Caller) -> bool
        requires { IsReachable (state_of self.old) }
        ensures { Takes (state_of self.old) (Look caller) result (state_of self.new) }
    {
        let held = self.held(&caller);
        let Some(Held::Wanting { call, event }) = &held else {
            return false;
        };
        let Caller::Reporter(reporter) = &caller else {
            return false;
        };
        let old = self.words[usize::from(event.game.get() - 1)];
        match next_word(old, *reporter, event.expected, event.kind) {
            Ok(new) => self.hold(
                caller,
                Held::Holding {
                    call: *call,
                    event: *event,
                    old,
                    new,
                },
            ),
            Err(refusal) => self.reply(caller, *call, self.now(), Reply::Refused(refusal)),
        }
        true
    }

    /// Takes the step `Swap`: replaces the word that a reporter loaded by the next one, if the word is still there, and refuses the event
    /// as stale if it is not. Returns false if the step is not enabled, and an error if out of memory.
    fn swap(&mut self, caller: Caller) -> Result<bool, AllocError>
        requires { IsReachable (state_of self.old) }
        ensures { IfOk result
            (λ taken. Takes (state_of self.old) (Swap caller) taken (state_of self.new)) }
    {
        let held = self.held(&caller);
        let Some(
            Held::Holding {
                call,
                event,
                old,
                new,
            },
        ) = &held
        else {
            return Ok(false);
        };
        let Caller::Reporter(reporter) = &caller else {
            return Ok(false);
        };
        let at = usize::from(event.game.get() - 1);
        let point = self.now();
        if self.words[at] == *old {
            self.history.push(Entry::of(*reporter, event))?;
            self.words[at] = *new;
            let number = number_of(*new);
            self.reply(caller, *call, point, Reply::Accepted(Accepted { number }));
        } else {
            let found = number_of(self.words[at]);
            let stale = Refusal::Stale { found };
            self.reply(caller, *call, point, Reply::Refused(stale));
        }
        Ok(true)
    }

    /// Takes the step `First`: loads the next word of a reading's first collect. The twelfth load is the reading's linearization point, if
    /// the second collect finds the same words. Returns false if the step is not enabled.
    fn first(&mut self, caller: Caller) -> bool
        requires { IsReachable (state_of self.old) }
        ensures { Takes (state_of self.old) (First caller) result (state_of self.new) }
    {
        let held = self.held(&caller);
        let Some(
            Held::Collecting {
                call,
                words,
                loaded,
            },
        ) = &held
        else {
            return false;
        };
        let mut words = *words;
        words[*loaded] = self.words[*loaded];
        let next = if *loaded == 11 {
            Held::Checking {
                call: *call,
                words,
                checked: 0,
                point: self.now(),
            }
        } else {
            Held::Collecting {
                call: *call,
                words,
                loaded: *loaded + 1,
            }
        };
        self.hold(caller, next);
        true
    }

    /// Takes the step `Second`: loads the next word of a reading's second collect. The reading begins anew if the word differs from that of
    /// the first collect, and has its reply once all twelve are the same. Returns false if the step is not enabled.
    fn second(&mut self, caller: Caller) -> bool
        requires { IsReachable (state_of self.old) }
        ensures { Takes (state_of self.old) (Second caller) result (state_of self.new) }
    {
        let held = self.held(&caller);
        let Some(
            Held::Checking {
                call,
                words,
                checked,
                point,
            },
        ) = &held
        else {
            return false;
        };
        if self.words[*checked] != words[*checked] {
            self.hold(caller, Held::collecting(*call));
        } else if *checked == 11 {
            let reading = Reading::of(&Board::of_packed(words));
            self.reply(caller, *call, *point, Reply::Copied(reading));
        } else {
            let next = Held::Checking {
                call: *call,
                words: *words,
                checked: *checked + 1,
                point: *point,
            };
            self.hold(caller, next);
        }
        true
    }

    /// Takes the step `End`: ends the call of a caller that has its reply. Returns false if the step is not enabled.
    fn end(&mut self, caller: Caller) -> bool
        requires { IsReachable (state_of self.old) }
        ensures { Takes (state_of self.old) (End caller) result (state_of self.new) }
    {
        let held = self.held(&caller);
        let Some(Held::Answered { call }) = &held else {
            return false;
        };
        let mut record = self.calls[*call];
        record.ended = Some(self.now());
        self.calls[*call] = record;
        self.hold(caller, Held::Idle);
        true
    }

    /// Returns what a caller holds between two of its steps, or `None` if the cast has no such caller.
    fn held(&self, caller: &Caller) -> Option<Held>
        ensures { option_map holds_of result ≡ held_by (state_of self.now).callers caller.now }
    {
        match caller {
            Caller::Reporter(reporter) => {
                let at = usize::from(reporter.get() - 1);
                if at < self.reporters.len() {
                    Some(self.reporters[at])
                } else {
                    None
                }
            }
            Caller::Reader(reader) => {
                if 0 < *reader && usize::from(*reader) <= self.readers.len() {
                    Some(self.readers[usize::from(*reader) - 1])
                } else {
                    None
                }
            }
        }
    }

    /// Sets what a caller of the cast holds between two of its steps.
    fn hold(&mut self, caller: Caller, next: Held)
        requires { IsSome (held_by (state_of self.old).callers caller) }
        ensures { state_of self.new ≡ with_held (holds_of next) caller (state_of self.old) }
    {
        match caller {
            Caller::Reporter(reporter) => self.reporters[usize::from(reporter.get() - 1)] = next,
            Caller::Reader(reader) => self.readers[usize::from(reader - 1)] = next,
        }
    }

    /// Sets the reply and the linearization point of the call at place `call`, and marks its caller as answered.
    fn reply(&mut self, caller: Caller, call: usize, point: u16, reply: Reply)
        requires held { IsSome (held_by (state_of self.old).callers caller) }
        requires call { call < length (state_of self.old).calls }
        ensures { state_of self.new ≡ after_reply caller call point reply (state_of self.old) }
    {
        let mut record = self.calls[call];
        record.point = Some(point);
        record.reply = Some(reply);
        self.calls[call] = record;
        self.hold(caller, Held::Answered { call });
    }

    /// Returns the length of the history, which is the present point.
    fn now(&self) -> u16
        requires { IsReachable (state_of self.now) }
        ensures { result ≡ length (state_of self.now).history }
    {
        self.history.len() as u16
    }
}
