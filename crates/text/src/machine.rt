// A machine that takes in a file: where it stands in what it reads, and what the file has there, say what it does.
ghost use Rattle.std.specs.Prelude.{◌≡◌, ℕ, ◌<◌, Bool, List, OnOk, Result};
ghost use Rattle.text.specs.Runs.{split, run_of};

pub trait Machine: Copy {
    type Fault;

    // What it gives where it stops.
    type Answer;

    // Whether it takes in no more.
    ghost over: { Self → Bool };

    // Where in the file it stands.
    ghost at: { Self → ℕ };

    // The machine after what stands there, or a fault.
    ghost after: { List ℕ → Self → Result Self Self.Fault };

    // What it gives, or a fault where the file ends too early.
    ghost answer: { Self → Result Self.Answer Self.Fault };

    fn is_over(&self) -> bool
        ensures { result ≡ over self.now };

    fn place(&self) -> usize
        ensures { result ≡ at self.now };

    // Takes in what stands at its place, and goes forward. A fault leaves the machine as it is.
    fn step(&mut self, file: &[u8]) -> Result<(), Self::Fault>
        ensures value { (self.new, result) ≡ split self.old (after file.now self.old) }
        ensures forward { OnOk result (at self.old < at self.new) };

    fn finish(self) -> Result<Self::Answer, Self::Fault>
        ensures { result ≡ answer self };
}

// Runs a machine until it takes in no more or the file ends.
pub fn run<M: Machine>(file: &[u8], start: M) -> Result<M::Answer, M::Fault>
    ensures { result ≡ run_of M.over M.at M.after M.answer file.now start }
{
    let mut machine = start;
    while !machine.is_over() && machine.place() < file.len() {
        machine.step(file)?;
    }
    machine.finish()
}
