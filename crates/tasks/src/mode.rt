ghost use Rattle.std.specs.Prelude.{◌≡◌};
ghost use Rattle.tasks.specs.Modes.{in_mode, number};

// Which table of starts a bench goes by: everyday, or critical after a job ran past its budget.
#[derive(Clone, Copy, PartialEq, Eq)]
pub enum Mode {
    Everyday,
    Critical,
}

// A number for each mode.
#[derive(Clone, Copy, Default)]
pub struct PerMode {
    pub everyday: u16,
    pub critical: u16,
}

impl PerMode {
    // The number for this mode.
    pub fn of(&self, mode: Mode) -> u16
        ensures value { result ≡ in_mode self.now (number mode) }
    {
        match mode {
            Mode::Everyday => self.everyday,
            Mode::Critical => self.critical,
        }
    }
}
