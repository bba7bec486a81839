ghost use Rattle.std.specs.Prelude.{◌≡◌, true, false, is_some, is_none};
ghost use Rattle.prodash_base.specs.declared.refusal.Refusal.TheVariants.{Memory};

use prodash_base::Refusal;

/// What a program's calls have done so far, some of which may run out of memory.
#[derive(Drop)]
pub struct Calls {
    /// The name of the latest.
    pub name: &'static str,
    /// How many were refused.
    pub refused: u64,
    /// The name of the first that did something other than it should.
    pub wrong: Option<&'static str>,
}

impl Calls {
    /// Returns the record of a program that has made no call.
    pub fn new() -> Calls
        ensures refused { result.refused ≡ 0 }
        ensures wrong { is_none result.wrong ≡ true }
    {
        Calls {
            name: "",
            refused: 0,
            wrong: None,
        }
    }

    /// Names the call that is made next.
    pub fn begin(&mut self, name: &'static str)
        ensures refused { self.new.refused ≡ self.old.refused }
        ensures wrong { self.new.wrong ≡ self.old.wrong }
    {
        self.name = name;
    }

    /// Notes that the call is wrong unless `holds`.
    pub fn expect(&mut self, holds: bool)
        ensures right { holds ≡ true → self.new ≡ self.old }
        ensures wrong { holds ≡ false → is_some self.new.wrong ≡ true }
    {
        if !holds {
            self.wrong = Some(self.wrong.unwrap_or(self.name));
        }
    }

    /// Counts the call as refused. `is_right` is whether it has changed nothing, and was accepted
    /// when it was made again. The call is also wrong if memory is not the reason.
    pub fn refuse(&mut self, refusal: Refusal, is_right: bool)
        ensures right { refusal ≡ Memory → is_right ≡ true → self.new.wrong ≡ self.old.wrong }
        ensures wrong { is_right ≡ false → is_some self.new.wrong ≡ true }
    {
        self.expect(refusal == Refusal::Memory && is_right);
        self.refused = self.refused.wrapping_add(1);
    }
}
