//! Which unsynced sectors a stop leaves new.

/// Which unsynced sectors have their last content after a stop: none, all, those of even or of odd number, or a single one.
#[derive(Clone, Copy, Debug)]
pub enum Choice {
    Old,
    New,
    Even,
    Odd,
    Single(u32),
}

/// The choices where any sectors are unsynced. Beside them there is one for each of these.
pub const CHOICES: [Choice; 4] = [Choice::Old, Choice::New, Choice::Even, Choice::Odd];

impl Choice {
    fn is_new(self, sector: u32) -> bool {
        match self {
            Choice::Old => false,
            Choice::New => true,
            Choice::Even => sector % 2 == 0,
            Choice::Odd => sector % 2 == 1,
            Choice::Single(number) => sector == number,
        }
    }

    /// For each sector of 64 pages whether it has its last content.
    pub fn sectors(self) -> [bool; 512] {
        let mut new = [false; 512];
        for sector in 0..512u32 {
            new[sector as usize] = self.is_new(sector);
        }
        new
    }
}
