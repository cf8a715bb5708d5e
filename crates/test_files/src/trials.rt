//! What comes of runs that stop, or that have too little memory.

/// What came of a run.
#[derive(Clone, Copy)]
pub enum Came {
    /// It was done.
    Done,
    /// What is found is that before.
    Before,
    /// What is found is that after.
    After,
    /// This broke what is promised.
    Broken(&'static str),
}

/// How many runs that were not done left what was before, and how many what is after; none if a run
/// broke what is promised, with what it broke.
#[derive(Clone, Copy, Debug)]
pub struct Seen {
    pub before: u32,
    pub after: u32,
    pub broken: Option<&'static str>,
}

impl Seen {
    pub const NOTHING: Seen = Seen {
        before: 0,
        after: 0,
        broken: None,
    };

    pub fn broken(why: &'static str) -> Seen {
        Seen {
            broken: Some(why),
            ..Seen::NOTHING
        }
    }

    /// Counts a run, and answers whether a run with more is to follow.
    pub fn counts(&mut self, came: Came) -> bool {
        match came {
            Came::Done => return false,
            Came::Before => self.before = self.before.saturating_add(1),
            Came::After => self.after = self.after.saturating_add(1),
            Came::Broken(why) => {
                *self = Seen::broken(why);
                return false;
            }
        }
        true
    }
}
