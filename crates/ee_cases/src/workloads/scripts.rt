//! Scripts about a part's variables, whose addresses are spread evenly.
use super::part::Part;

/// The address of a variable by its number, the variables being so many: they rise,
/// and are spread evenly.
pub fn address_of(number: u32, live: u32) -> u64 {
    let gap = 65534 / live.max(1);
    1 + u64::from(number % 65534) * u64::from(gap) % 65534
}

impl Part {
    /// Writes a script of so many lines: of a hundred lines some read, of a hundred of the others
    /// some forget, and of a hundred some are about the first variables, a sixteenth of all.
    pub fn write(&mut self, lines: u32, reads: u32, forgets: u32, often: u32) {
        self.text.clear();
        self.write_lines(lines, reads, forgets, often);
    }

    /// Writes such lines behind others.
    pub fn write_lines(&mut self, lines: u32, reads: u32, forgets: u32, often: u32) {
        for _ in 0..lines {
            self.write_line(reads, forgets, often);
        }
    }

    /// Writes a line.
    fn write_line(&mut self, reads: u32, forgets: u32, often: u32) {
        let address = self.any(often);
        if self.dice.comes(reads) {
            self.push("r ", address);
        } else if self.dice.comes(forgets) {
            self.push("f ", address);
        } else {
            self.push("w ", address);
            let value = self.dice.below(u32::MAX);
            self.push(" ", u64::from(value));
        }
        self.end("\n");
    }

    /// The address of any of the variables.
    fn any(&mut self, often: u32) -> u64 {
        let among = if self.dice.comes(often) {
            self.live / 16
        } else {
            self.live
        };
        address_of(self.dice.below(among.max(1)), self.live)
    }

    /// Writes a script that gives each variable a value, in an order that is neither
    /// rising nor falling.
    pub fn write_filling(&mut self) {
        for place in 0..self.live {
            // 7919 is a prime that divides none of the numbers of variables that are used here.
            let number = (u64::from(place) * 7919 % u64::from(self.live.max(1))) as u32;
            self.push("w ", address_of(number, self.live));
            let value = self.dice.below(u32::MAX);
            self.push(" ", u64::from(value));
            self.end("\n");
        }
    }

    /// Writes so many lines that write variables beside those of the part.
    pub fn write_new(&mut self, lines: u32) {
        for _ in 0..lines {
            let address = 1 + self.any(0) % 65534;
            self.push("w ", address);
            let value = self.dice.below(u32::MAX);
            self.push(" ", u64::from(value));
            self.end("\n");
        }
    }

    /// Writes a line that cuts power within so many steps, with any of the four outcomes.
    pub fn write_cut(&mut self, within: u32) {
        let steps = self.dice.below(within);
        self.push("x ", 1 + u64::from(steps));
        let outcome = match self.dice.below(4) {
            0 => " n\n",
            1 => " d\n",
            2 => " t\n",
            _ => " m\n",
        };
        self.end(outcome);
    }
}
