//! The case of a run.
use elf_image::Image;
use std::marker::Model;
use std::sync::Arc;

/// All that a run depends on but the order of its steps. Contracts see it as plain data.
#[derive(Drop)]
pub struct Case {
    /// The loaded program.
    pub image: Arc<Image>,
    /// The arguments, the program's own word first.
    pub args: Vec<String>,
    /// All the bytes that the guest can read.
    pub input: Vec<u8>,
    /// The number of steps at which a run ends.
    pub limit: u64,
    /// Whether a jump to code that isn't lifted ends the run.
    pub strict: bool,
    /// The places that count as grown before the first entry, by rising address.
    pub first: Vec<u64>,
}

impl Model for Case {
    ghost use Rattle.std.specs.Prelude.{map, string_bytes};
    ghost use Rattle.machine_model.specs.CaseData.{CaseData};

    ghost Value = { CaseData };

    ghost view = { λ c. record { image = c.image.value; args = map (λ s. string_bytes s) c.args.items; input = c.input.items; limit = c.limit; strict = c.strict; first = c.first.items } };
}

impl Case {
    ghost use Rattle.std.specs.Prelude.{◌≡◌};

    /// The loaded program.
    pub fn image(&self) -> &Image
        ensures { result.now ≡ self.now.image }
    {
        &self.image
    }

    /// The number of steps at which a run ends.
    pub fn limit(&self) -> u64
        ensures { result ≡ self.now.limit }
    {
        self.limit
    }

    /// The places that count as grown before the first entry, by rising address.
    pub fn first(&self) -> &[u64]
        ensures { result.now ≡ self.now.first }
    {
        self.first.as_slice()
    }
}
