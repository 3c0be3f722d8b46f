//! A debugger's session over standard input and standard output.

ghost use Rattle.std.specs.Prelude.{◌≡◌, false, IfOk, ⊤};

use debug_session::Connect;
use host_files::{Explained, Reason};
use link::{Failed, Meter};
use std::io::{self, Input, Print, Printer};

/// Standard input and standard output. The system's error of a call that fails is left in `reason`.
#[derive(Drop)]
pub(crate) struct StandardStreams<'a, R> {
    pub(crate) rt: &'a R,
    pub(crate) reason: &'a Reason,
}

impl<'a, R: Input + Print> Connect for StandardStreams<'a, R> {
    type Reader = Meter<Explained<'a, R::Reader>>;

    type Writer = Meter<Explained<'a, Printer<'a, R>>>;

    ghost gives = { λ streams link. ⊤ };

    fn connect(
        &mut self,
    ) -> Result<
        (
            Meter<Explained<'a, R::Reader>>,
            Meter<Explained<'a, Printer<'a, R>>>,
        ),
        Failed,
    > {
        let reader = Explained {
            device: self.rt.reader(),
            reason: self.reason,
        };
        let writer = Explained {
            device: io::writer(self.rt),
            reason: self.reason,
        };
        Ok((Meter::new(reader), Meter::new(writer)))
    }
}
