ghost use Rattle.std.specs.Prelude.{◌≡◌};

/// Work that keeps what it comes to, also where memory lacks. Contracts see when it may run, and how work that has run
/// stands to what it was.
pub trait Job: Send {
    ghost ready: { Self → Type 0 };

    ghost ran: { Self → Self → Type 0 };

    /// Does the work.
    fn run(&mut self)
        requires { ready self.old }
        ensures { ran self.old self.new };
}
