ghost use Rattle.std.specs.Prelude.{◌≡◌, ◌/◌, length};
ghost use Rattle.sinks.specs.Sinks.{told, empty};
ghost use Rattle.sinks.specs.Logs.{log_account, logged_bytes};

use crate::counter::Counter;
use crate::pair::Pair;
use crate::sink::Sink;

// A sink that writes the pairs, one behind the other, into bytes that it is lent. A pair takes 16
// bytes: its two numbers, the lowest byte first. The clauses named `lender` say that the log stays
// with the same bytes, so that their owner knows what they hold when the log ends. Bytes with a count
// beside them, and no Vec, are a rule of the project: a sink owns no memory.
#[derive(Debug, Drop)]
pub struct Log<'a> {
    bytes: &'a mut [u8],
    written: Counter,
}

impl<'a> Log<'a> {
    // A log of no pairs over these bytes, which stay as they are.
    pub fn new(bytes: &'a mut [u8]) -> Log<'a>
        ensures account { log_account result ≡ empty (length bytes.old / 16) }
        ensures bytes { result.bytes.now ≡ bytes.old }
        ensures lender { result.bytes.ghost_name ≡ bytes.entry.ghost_name }
    {
        Log {
            bytes,
            written: Counter::new(),
        }
    }

    // How many pairs it has written.
    pub fn count(&self) -> u64
        ensures { result ≡ (log_account self.now).count }
    {
        self.written.count()
    }

    // The latest pair, or (0, 0).
    pub fn latest(&self) -> Pair
        ensures { result ≡ (log_account self.now).latest }
    {
        self.written.latest()
    }

    // How many more pairs fit.
    pub fn capacity(&self) -> u64
        ensures { result ≡ (log_account self.now).capacity }
    {
        (self.bytes.len() as u64 / 16).saturating_sub(self.written.count())
    }

    // All of the bytes: those of the pairs, 16 for each, and those that are not written.
    pub fn bytes(&self) -> &[u8]
        ensures { result.now ≡ self.now.bytes.now }
    {
        &*self.bytes
    }
}

impl Sink for Log<'_> {
    ghost account = { log_account };

    ghost fresh = { λ s. s.written.fresh };

    // Where there is room, the pair's bytes are written behind those of the pairs before it, and all
    // other bytes stay as they are; else all of them do.
    fn tell(&mut self, pair: Pair)
        ensures account { log_account self.new ≡ told (log_account self.old) pair }
        ensures bytes { self.new.bytes.now ≡ logged_bytes pair (log_account self.old).count self.old.bytes.now }
        ensures lender { self.new.bytes.ghost_name ≡ self.old.bytes.ghost_name }
    {
        let count = self.written.count() as usize;
        if count < self.bytes.len() / 16 {
            let at = 16 * count;
            self.bytes[at..at + 16].copy_from_slice(&pair.to_bytes());
            self.written.tell(pair);
        }
    }
}
