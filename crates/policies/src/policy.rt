ghost use Rattle.policies.specs.Policies.{Lawful, Means};
ghost use Rattle.std.specs.List.{slice_get};
ghost use Rattle.std.specs.Prelude.{◌≡◌};

// In which order the controllers are tried for a task. A level is a plain number: a row may hold any, and a type of two levels
// would ask callers for a check first.
pub trait Policy {
    // How many controllers there are, their order for each level, and the policy after it is told.
    ghost meaning: { Means Self };

    // How many controllers there are.
    fn count(&self) -> u8
        ensures value { result ≡ meaning.count self.now };

    // The controller at place `k` of the order for this level, or none past its end.
    fn place(&self, level: u8, k: u8) -> Option<u8>
        ensures value { result ≡ slice_get (meaning.order self.now level) k };

    // Tells the policy that a task of this level went to this controller. No body serves each policy, so none stands here; nor
    // for `count`, which reads a field of the policy's own.
    fn tell(&mut self, level: u8, controller: u8)
        ensures after { self.new ≡ meaning.told self.old level controller };

    // What each policy must prove.
    ghost lawful: { Lawful meaning };
}
