//! Faults, as the program tells them.

ghost use Rattle.std.specs.Prelude.{◌≡◌, ◌≤◌};
ghost use Rattle.edd_commands.specs.Faults.{status_beside};

/// What is told of a fault beside its name.
#[derive(Clone, Copy, Debug, PartialEq, Eq)]
pub enum Beside {
    /// Nothing.
    Nothing,
    /// An id or a number.
    Number(u64),
    /// A number that has a sign.
    Signed(i64),
    /// The number of a record of the input, from 1 on.
    Record(u64),
    /// The number of a line of the input, from 1 on.
    Line(u64),
    /// That the arguments can't be done.
    Words,
    /// That the reader failed.
    Read,
    /// That the writer failed.
    Write,
    /// That memory ran out.
    Memory,
}

impl Beside {
    /// The exit status: 1 for refused input, 2 for arguments that can't be done, 3 when out of memory, for a read fault or a write fault.
    pub fn status(self) -> u8
        ensures value { result ≡ status_beside self }
        ensures range { (1 ≤ result) × (result ≤ 3) }
    {
        match self {
            Beside::Read | Beside::Write | Beside::Memory => 3,
            Beside::Words => 2,
            _ => 1,
        }
    }
}

/// What is told of a fault.
#[derive(Clone, Copy, Debug, PartialEq, Eq)]
pub struct Told {
    /// Its name.
    pub name: &'static str,
    /// What else.
    pub beside: Beside,
}

/// A fault, as the program tells it.
pub trait Fault {
    ghost use Rattle.std.specs.Prelude.{ℕ, List};
    ghost use Rattle.edd_commands.specs.declared.faults.Beside.{Beside as ABeside};

    /// Its name, and what is told beside it.
    ghost told: { Self → List ℕ × ABeside };

    /// What is told of it.
    fn told(&self) -> Told
        ensures name { result.name.now ≡ (told self.now).0 }
        ensures beside { result.beside ≡ (told self.now).1 };

    /// Its name.
    final fn name(&self) -> &'static str
        ensures { result.now ≡ (told self.now).0 }
    {
        self.told().name
    }
}

impl Fault for Told {
    ghost told = { λ t. (t.name.now, t.beside) };

    fn told(&self) -> Told {
        *self
    }
}

/// What is told of a fault, by a list that has every variant with its payload, in any order. The name is the variant's or the text
/// behind `as`, and an arrow gives what is told beside it. Of a variant that holds a fault, `by` that fault tells both:
///
/// ```text
/// told!(self: Why { Title, RepeatedId(id) => Number(id), Stalled as "stalled", Setup(fault) by fault, Memory => Memory })
/// ```
#[macro_export]
macro_rules! told {
    (@beside) => { $crate::Beside::Nothing };
    (@beside $beside:ident $($value:expr)?) => { $crate::Beside::$beside $(($value))? };
    (@by [] $told:expr) => { $told };
    (@by [$held:ident] $told:expr) => { $crate::Fault::told(&$held) };
    ($fault:ident: $kind:ident { $($variant:ident $(($payload:pat))? $(as $name:literal)? $(by $held:ident)? $(=> $beside:ident $(($value:expr))?)?),* $(,)? }) => {
        match *$fault {
            $($kind::$variant $(($payload))? => $crate::told!(@by [$($held)?] $crate::Told {
                name: $crate::variant_name!(@ $variant $($name)?),
                beside: $crate::told!(@beside $($beside $($value)?)?),
            }),)*
        }
    };
}
