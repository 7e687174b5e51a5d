//! How long a connection waits: by what is under way, by what came, and by its age.

ghost use Rattle.std.specs.Prelude.{◌≡◌, ◌-◌, ◌≤◌, ◌<◌, min, true, false};
ghost use Rattle.world_real.specs.Waits.{grown, patience, stretch_end};

/// The seconds that a call waits for the server while nothing is under way: for its answer at one address, for room for
/// bytes, or for bytes.
pub const STILL_SECONDS: u64 = 60;

// The same where a letter, or its last part, is out. A line that was dead for a minute or two may still carry it to the
// server, so a connection that is given up sooner would have it sent twice.
const LONG_SECONDS: u64 = 200;

// The slowest line that is waited for: bytes that it carries in a second. Each so many bytes that were sent and not
// answered make the wait a second longer.
const SLOWEST_RATE: u64 = 2_000;

// A stretch of so many seconds, and one more for each `SLOWEST_RATE` bytes that were sent in it, brings so many bytes, or
// the connection fails. So a server that drips holds no connection for ever.
const STRETCH_SECONDS: u64 = 900;

const STRETCH_BYTES: u64 = 4_096;

/// What a connection sent and received so far, with its age in seconds at some moments of it.
#[derive(Clone, Copy)]
pub struct Patience {
    most: u64,
    under_way: u64,
    is_long: bool,
    stretch_begin: u64,
    came: u64,
    went: u64,
}

impl Patience {
    /// The patience of a new connection, which may become so many seconds old.
    pub fn new(most: u64) -> Patience
        ensures { result ≡ record { most = most; under_way = 0; is_long = false; stretch_begin = 0; came = 0; went = 0 } }
    {
        Patience {
            most,
            under_way: 0,
            is_long: false,
            stretch_begin: 0,
            came: 0,
            went: 0,
        }
    }

    /// The bytes that were sent since the last one was received.
    pub fn under_way(&self) -> u64
        ensures { result ≡ self.now.under_way }
    {
        self.under_way
    }

    /// How many seconds a server may be silent, however old the connection is.
    pub fn in_silence(&self) -> u64
        ensures { result ≡ patience self.now.is_long self.now.under_way }
    {
        let least = if self.is_long {
            LONG_SECONDS
        } else {
            STILL_SECONDS
        };
        least + self.under_way / SLOWEST_RATE
    }

    /// How many seconds a call may wait that begins at this age. At 0 the connection's time is over.
    pub fn seconds(&self, age: u64) -> u64
        ensures { result ≡ min (patience self.now.is_long self.now.under_way)
            (min (self.now.most - age) (stretch_end self.now.stretch_begin self.now.went - age)) }
    {
        let stretch = STRETCH_SECONDS + self.went / SLOWEST_RATE;
        let end = self.stretch_begin.saturating_add(stretch);
        let left = self.most.saturating_sub(age).min(end.saturating_sub(age));
        self.in_silence().min(left)
    }

    /// A long part is sent from now on. It counts as under way until a byte is received.
    pub fn long_begins(&mut self)
        ensures { self.new ≡ record self.old { is_long = true } }
    {
        self.is_long = true;
    }

    /// So many bytes are sent.
    pub fn sent(&mut self, count: usize)
        ensures { self.new ≡ record self.old {
          under_way = grown self.old.under_way count;
          went = grown self.old.went count;
        } }
    {
        self.under_way = self.under_way.saturating_add(count as u64);
        self.went = self.went.saturating_add(count as u64);
    }

    /// So many bytes were received at this age. Nothing is under way then, and where a stretch has brought its bytes the next
    /// one begins.
    pub fn received(&mut self, age: u64, count: usize)
        ensures stretch { 4096 ≤ grown self.old.came count → self.new ≡
            record self.old { under_way = 0; is_long = false; stretch_begin = age; came = 0; went = 0 } }
        ensures meanwhile { grown self.old.came count < 4096 → self.new ≡
            record self.old { under_way = 0; is_long = false; came = grown self.old.came count } }
    {
        self.under_way = 0;
        self.is_long = false;
        self.came = self.came.saturating_add(count as u64);
        if self.came >= STRETCH_BYTES {
            self.stretch_begin = age;
            self.came = 0;
            self.went = 0;
        }
    }
}
