ghost use Rattle.std.specs.Prelude.{◌≡◌};
ghost use Rattle.mx_outside.specs.Memory.{one_more, next_fails};

/// The calls made of an object, and the numbers of those that fail.
#[derive(Drop)]
pub struct Calls {
    pub failing: Vec<u64>,
    pub made: u64,
}

impl Calls {
    pub fn make(failing: Vec<u64>) -> Calls
        ensures failing { result.failing ≡ failing }
        ensures made { result.made ≡ 0 }
    {
        Calls { failing, made: 0 }
    }

    /// Counts one more call, and tells whether it fails.
    pub fn next_fails(&mut self) -> bool
        ensures answer { result ≡ next_fails self.old.failing.items self.old.made }
        ensures made { self.new.made ≡ one_more self.old.made }
        ensures failing { self.new.failing ≡ self.old.failing }
    {
        self.made = self.made.saturating_add(1);
        self.failing.contains(&self.made)
    }
}
