//! Calls on a handle, a pointer for C to a box with a board and a pass of it, or null. The box is taken out, called on, and put back.

ghost use Rattle.std.specs.Prelude.{◌≡◌, true, false, IfOk, IfErr, MatchResult, Ok, None};
ghost use Rattle.std.specs.Fn.{FnOnceReturnsAtMut};
ghost use Rattle.ucl_c.specs.declared.board_pass.AnyPass.TheVariants.{Nobody};
ghost use Rattle.ucl_c.specs.Faults.{fault_code};
ghost use Rattle.ucl_c.specs.Handles.{is_null, pass_held, fault_of_room, IsCallOn, IsRefusalOn};

use crate::board_pass::BoardPass;
use crate::fault::Fault;
use crate::handle::{Handle, UclboardPass};
use crate::raw_box::RawBox;
use std::alloc::Global;
use std::ptr::null_mut;

impl Handle {
    /// Returns whether the handle is null.
    pub fn is_null(&mut self) -> bool
        ensures { (result ≡ is_null self.old.at)
            × (result ≡ true → pass_held self.old ≡ Nobody) × (self.new ≡ self.old) }
    {
        self.at.is_null()
    }

    /// Takes out the box that the handle owns, in parts, and leaves the handle null; it must not be null before.
    fn take(&mut self, alloc: Global) -> RawBox<BoardPass, Global>
        requires { is_null self.old.at ≡ false }
        ensures { (result.value.pass ≡ pass_held self.old)
            × (is_null self.new.at ≡ true) × (pass_held self.new ≡ Nobody) }
    {
        let ptr = self.at as *mut BoardPass;
        self.at = null_mut();
        RawBox { ptr, alloc }
    }

    /// Makes a null handle own a box with a board and a pass, which is given by its parts: its pointer and its allocator.
    fn put(&mut self, parts: RawBox<BoardPass, Global>)
        requires { is_null self.old.at ≡ true }
        ensures { (pass_held self.new ≡ parts.value.pass) × (is_null self.new.at ≡ false) }
    {
        let RawBox { ptr, alloc: _ } = parts;
        self.at = ptr as *mut UclboardPass;
    }

    /// Calls `call` on the board and the pass that the handle holds, and returns its result; `NoPass` if the handle is null.
    pub fn with_held<T, F: FnOnce(&mut BoardPass) -> Result<T, Fault>>(
        &mut self,
        alloc: Global,
        call: F,
    ) -> Result<T, Fault>
        requires { F.IsAlwaysCallable call }
        ensures called { MatchResult result
            (λ made. IsCallOn (FnOnceReturnsAtMut F.FnOnce call)
            (pass_held self.old) (Ok made) (pass_held self.new))
            (λ fault. IsRefusalOn (FnOnceReturnsAtMut F.FnOnce call)
            (pass_held self.old) fault (pass_held self.new)) }
        ensures null { is_null self.new.at ≡ is_null self.old.at }
    {
        if self.is_null() {
            return Err(Fault::NoPass);
        }
        let mut held = self.take(alloc).into_box();
        let made = call(held.as_mut());
        self.put(RawBox::of(held));
        made
    }

    /// Makes a null handle own the pass in `made` and returns 0; if `made` is a fault, returns its number and leaves the handle null.
    pub fn give(&mut self, made: Result<Box<BoardPass>, Fault>) -> u32
        requires { is_null self.old.at ≡ true }
        ensures given { IfOk made (λ held. (result ≡ 0) × (pass_held self.new ≡ held.value.pass)) }
        ensures refused { IfErr made (λ fault. (result ≡ fault_code fault)
            × (self.new ≡ self.old)) }
    {
        match made {
            Ok(held) => {
                self.put(RawBox::of(held));
                0
            }
            Err(fault) => fault.status(),
        }
    }

    /// Drops the pass that the handle holds, if it holds one, and with the last pass of a board the board. The handle is null then.
    pub fn let_go(&mut self, alloc: Global)
        ensures { (fault_of_room self.new ≡ None) × (pass_held self.new ≡ Nobody) }
    {
        if !self.is_null() {
            drop(self.take(alloc).into_box());
        }
    }
}
