//! Gates that hold a step until another has come.
use aff_outside::{Gate, GateStep};
use std::sync::Arc;
use std::sync::atomic::{AtomicU64, Ordering};
use std::thread;

/// How often a gate looks at most.
const TURNS: u64 = 10_000_000;

/// Waits until a number is reached, or too long.
fn wait_for(number: &AtomicU64, wanted: u64) {
    for _ in 0..TURNS {
        if number.load(Ordering::SeqCst) >= wanted {
            break;
        }
        thread::yield_now();
    }
}

/// Holds a session's reads until something is published.
#[derive(Drop)]
pub struct FirstPublished {
    published: AtomicU64,
}

impl FirstPublished {
    pub fn new() -> FirstPublished {
        FirstPublished {
            published: AtomicU64::new(0),
        }
    }
}

impl Gate for FirstPublished {
    fn at(&self, step: GateStep) {
        match step {
            GateStep::Published(front) => {
                self.published.fetch_max(front, Ordering::SeqCst);
            }
            GateStep::Asking(_) => wait_for(&self.published, 1),
            _ => {}
        }
    }
}

/// Holds a session's question `k` until there are `k` publications, while the worker goes on, and looks whether it is answered
/// by as many.
#[derive(Drop)]
pub struct BehindEach {
    published: AtomicU64,
    questions: AtomicU64,
    answers: AtomicU64,
    late: AtomicU64,
}

impl BehindEach {
    pub fn new() -> BehindEach {
        BehindEach {
            published: AtomicU64::new(0),
            questions: AtomicU64::new(0),
            answers: AtomicU64::new(0),
            late: AtomicU64::new(0),
        }
    }

    /// Whether so many questions were answered, each by as many publications as there were.
    pub fn saw(&self, count: u64) -> bool {
        self.answers.load(Ordering::SeqCst) == count && self.late.load(Ordering::SeqCst) == 0
    }
}

impl Gate for BehindEach {
    fn at(&self, step: GateStep) {
        match step {
            GateStep::Reading(_) => {}
            GateStep::Published(front) => {
                self.published.fetch_max(front, Ordering::SeqCst);
            }
            GateStep::Asking(_) => {
                let before = self.questions.fetch_add(1, Ordering::SeqCst);
                wait_for(&self.published, before.saturating_add(1));
            }
            GateStep::Answered(_, front) => {
                if front <= self.answers.fetch_add(1, Ordering::SeqCst) {
                    self.late.fetch_add(1, Ordering::SeqCst);
                }
            }
        }
    }
}

/// Lets a worker and a session go on by turns: the worker's reading `k` begins when the session was answered `k` times, and
/// the session's question `k` when there are `k - 1` publications.
#[derive(Drop)]
pub struct InTurn {
    readings: AtomicU64,
    questions: AtomicU64,
    answers: AtomicU64,
    published: AtomicU64,
}

impl InTurn {
    pub fn new() -> InTurn {
        InTurn {
            readings: AtomicU64::new(0),
            questions: AtomicU64::new(0),
            answers: AtomicU64::new(0),
            published: AtomicU64::new(0),
        }
    }
}

impl Gate for InTurn {
    fn at(&self, step: GateStep) {
        match step {
            GateStep::Reading(_) => {
                let before = self.readings.fetch_add(1, Ordering::SeqCst);
                wait_for(&self.answers, before.saturating_add(1));
            }
            GateStep::Asking(_) => {
                let before = self.questions.fetch_add(1, Ordering::SeqCst);
                wait_for(&self.published, before);
            }
            GateStep::Answered(_, _) => {
                self.answers.fetch_add(1, Ordering::SeqCst);
            }
            GateStep::Published(front) => {
                self.published.fetch_max(front, Ordering::SeqCst);
            }
        }
    }
}

/// Holds a session's questions until the worker's first reading has come, and that reading until so many questions were
/// answered.
#[derive(Drop)]
pub struct AskedFirst {
    questions: u64,
    readings: AtomicU64,
    answers: AtomicU64,
}

impl AskedFirst {
    pub fn new(questions: u64) -> AskedFirst {
        AskedFirst {
            questions,
            readings: AtomicU64::new(0),
            answers: AtomicU64::new(0),
        }
    }
}

impl Gate for AskedFirst {
    fn at(&self, step: GateStep) {
        match step {
            GateStep::Reading(_) => {
                if self.readings.fetch_add(1, Ordering::SeqCst) == 0 {
                    wait_for(&self.answers, self.questions);
                }
            }
            GateStep::Asking(_) => wait_for(&self.readings, 1),
            GateStep::Answered(_, _) => {
                self.answers.fetch_add(1, Ordering::SeqCst);
            }
            GateStep::Published(_) => {}
        }
    }
}

/// How many pieces an examiner has seen, and how many of them out of turn.
#[derive(Drop)]
pub struct Sightings {
    count: AtomicU64,
    strange: AtomicU64,
}

impl Sightings {
    pub fn new() -> Sightings {
        Sightings {
            count: AtomicU64::new(0),
            strange: AtomicU64::new(0),
        }
    }

    /// The examiner sees the piece of this front.
    pub fn note(&self, front: u64) {
        let before = self.count.fetch_add(1, Ordering::SeqCst);
        if front != before.saturating_add(1) {
            self.strange.fetch_add(1, Ordering::SeqCst);
        }
    }

    /// Whether so many pieces were seen, each in its turn.
    pub fn saw(&self, count: u64) -> bool {
        self.count.load(Ordering::SeqCst) == count && self.strange.load(Ordering::SeqCst) == 0
    }
}

/// Holds a worker's second reading until an examiner has seen a piece, and looks whether it then has.
#[derive(Drop)]
pub struct SeenFirst {
    readings: AtomicU64,
    sightings: Arc<Sightings>,
    blind: AtomicU64,
}

impl SeenFirst {
    pub fn new(sightings: Arc<Sightings>) -> SeenFirst {
        SeenFirst {
            readings: AtomicU64::new(0),
            sightings,
            blind: AtomicU64::new(0),
        }
    }

    /// Whether two readings came, and the second one after a piece had been seen.
    pub fn met(&self) -> bool {
        self.readings.load(Ordering::SeqCst) == 2 && self.blind.load(Ordering::SeqCst) == 0
    }
}

impl Gate for SeenFirst {
    fn at(&self, step: GateStep) {
        let GateStep::Reading(_) = step else {
            return;
        };
        if self.readings.fetch_add(1, Ordering::SeqCst) == 0 {
            return;
        }
        wait_for(&self.sightings.count, 1);
        if self.sightings.count.load(Ordering::SeqCst) == 0 {
            self.blind.fetch_add(1, Ordering::SeqCst);
        }
    }
}
