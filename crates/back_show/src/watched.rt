//! A dialer that is watched.

ghost use Rattle.std.specs.Prelude.{◌≡◌, ◌≤◌, ◌<◌};

use drb_outside::{Address, Dialer, Failed};

/// What was seen of a call.
#[derive(Clone, Copy, Debug)]
pub struct Note {
    /// Whether the dial failed.
    pub refused: bool,
    /// How many bytes were received.
    pub received: usize,
}

/// A dialer that sends and receives at most so many bytes at once, with notes of its calls.
#[derive(Drop)]
pub struct Watched<D: Dialer> {
    dialer: D,
    piece: usize,
    times: u64,
    notes: Vec<Note>,
    up: bool,
}

impl<D: Dialer> Watched<D> {
    /// That dialer, of whose pieces none has more bytes than `piece` (0 counts as 1), and which is to be called so
    /// often.
    ///
    /// As many calls are noted as there is room in `notes`.
    pub fn new(dialer: D, piece: usize, times: u64, notes: Vec<Note>) -> Watched<D> {
        Watched {
            dialer,
            piece,
            times,
            notes,
            up: false,
        }
    }

    /// The dialer that is watched.
    pub fn dialer(&self) -> &D {
        &self.dialer
    }

    /// How often it is to be called.
    pub fn times(&self) -> u64 {
        self.times
    }

    /// The notes of its calls, first to last.
    pub fn notes(&self) -> &[Note] {
        &self.notes
    }

    /// Whether the last call is up.
    pub fn is_up(&self) -> bool {
        self.up
    }

    /// How many bytes of so many are sent or received at once.
    fn piece_of(&self, count: usize) -> usize
        ensures most { result ≤ count }
        ensures some { 0 < count → 0 < result }
    {
        count.min(self.piece.max(1))
    }

    /// Notes a dial.
    fn note(&mut self, refused: bool)
        ensures { self.new.dialer ≡ self.old.dialer }
    {
        self.up = !refused;
        if self.notes.len() < self.notes.capacity() {
            self.notes.push_reserved(Note {
                refused,
                received: 0,
            });
        }
    }

    /// Notes bytes that were received.
    fn note_received(&mut self, count: usize)
        ensures { self.new.dialer ≡ self.old.dialer }
    {
        if let Some(last) = self.notes.last_mut() {
            last.received = last.received.saturating_add(count);
        }
    }
}

impl<D: Dialer> Dialer for Watched<D> {
    ghost calls = { λ s. D.calls s.dialer };

    ghost faults = { λ s. D.faults s.dialer };

    fn dial(&mut self, to: &Address<'_>) -> Result<(), Failed> {
        let made = self.dialer.dial(to);
        self.note(made.is_err());
        made
    }

    fn send(&mut self, piece: &[u8]) -> Result<usize, Failed> {
        let most = self.piece_of(piece.len());
        self.dialer.send(&piece[..most])
    }

    fn receive(&mut self, buf: &mut [u8]) -> Result<usize, Failed> {
        let most = self.piece_of(buf.len());
        let count = self.dialer.receive(&mut buf[..most])?;
        self.note_received(count);
        Ok(count)
    }

    fn hang_up(&mut self) {
        self.dialer.hang_up();
        self.up = false;
    }
}
