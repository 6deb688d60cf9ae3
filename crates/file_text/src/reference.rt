ghost use Rattle.std.specs.Prelude.{◌≡◌};
ghost use Rattle.file_text.specs.inside.Machine.{referred};
ghost use Rattle.file_text.specs.inside.Runs.{IsPartOfEntity};

/// What has been read of an entity.
#[derive(Clone, Copy)]
pub(crate) enum Reference {
    Ampersand,
    L,
    Lt,
    G,
    Gt,
    A,
    Am,
    Amp,
    Ap,
    Apo,
    Apos,
    Q,
    Qu,
    Quo,
    Quot,
}

/// What a further byte makes of an entity.
#[derive(Clone, Copy)]
pub(crate) enum Referred {
    More(Reference),
    /// It ends it, and the entity stands for this character.
    Done(u8),
    Leaves,
}

impl Reference {
    pub(crate) fn after(self, b: u8) -> Referred
        ensures { result ≡ referred self b }
    {
        match (self, b) {
            (Reference::Ampersand, b'l') => Referred::More(Reference::L),
            (Reference::Ampersand, b'g') => Referred::More(Reference::G),
            (Reference::Ampersand, b'a') => Referred::More(Reference::A),
            (Reference::Ampersand, b'q') => Referred::More(Reference::Q),
            (Reference::L, b't') => Referred::More(Reference::Lt),
            (Reference::G, b't') => Referred::More(Reference::Gt),
            (Reference::A, b'm') => Referred::More(Reference::Am),
            (Reference::Am, b'p') => Referred::More(Reference::Amp),
            (Reference::A, b'p') => Referred::More(Reference::Ap),
            (Reference::Ap, b'o') => Referred::More(Reference::Apo),
            (Reference::Apo, b's') => Referred::More(Reference::Apos),
            (Reference::Q, b'u') => Referred::More(Reference::Qu),
            (Reference::Qu, b'o') => Referred::More(Reference::Quo),
            (Reference::Quo, b't') => Referred::More(Reference::Quot),
            (Reference::Lt, b';') => Referred::Done(b'<'),
            (Reference::Gt, b';') => Referred::Done(b'>'),
            (Reference::Amp, b';') => Referred::Done(b'&'),
            (Reference::Apos, b';') => Referred::Done(b'\''),
            (Reference::Quot, b';') => Referred::Done(b'"'),
            _ => Referred::Leaves,
        }
    }
}

/// How many bytes in front go on with an entity, and what they make of it.
pub(crate) fn entity_len(read: Reference, bytes: &[u8]) -> (usize, Referred)
    ensures { IsPartOfEntity read bytes.now result.0 result.1 }
{
    let mut known = read;
    let mut count = 0;
    while count < bytes.len() {
        match known.after(bytes[count]) {
            Referred::More(more) => {
                known = more;
                count += 1;
            }
            Referred::Done(c) => return (count + 1, Referred::Done(c)),
            Referred::Leaves => break,
        }
    }
    (count, Referred::More(known))
}
