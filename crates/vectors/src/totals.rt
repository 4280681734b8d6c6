// How many vectors agree and how many differ.

// Both counts, each up to the largest number.
#[derive(Clone, Copy, Default)]
pub struct Totals {
    agree: u32,
    differ: u32,
}

impl Totals {
    // Counts one more vector.
    pub fn count(&mut self, agrees: bool) {
        if agrees {
            self.agree = self.agree.saturating_add(1);
        } else {
            self.differ = self.differ.saturating_add(1);
        }
    }

    // Writes how many vectors agree and how many differ; a word names what they are.
    pub fn print(self, rt: &impl Print, what: &str) {
        let Totals { agree, differ } = self;
        let _ = println!(rt; "{agree} {what} agree, {differ} differ");
    }
}
