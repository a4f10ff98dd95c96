// The numbers of a line.
use arrayvec::ArrayVec;

// The most numbers that a line may have; those after them are left out.
const MOST: usize = 64;

#[derive(Drop)]
pub struct Figures {
    values: ArrayVec<usize, MOST>,
}

// The number that is being read, if any, and what is added to it: 128 after an `o`.
#[derive(Clone, Copy)]
struct Number {
    value: Option<usize>,
    base: usize,
}

impl Number {
    // A number of more than 19 digits keeps its first 19.
    fn digit(&mut self, digit: u8) {
        let value = self.value.unwrap_or(0);
        self.value = Some(if value < 1000000000000000000 {
            value * 10 + usize::from(digit)
        } else {
            value
        });
    }
}

impl Figures {
    // The number that was being read is one of the line's; one that begins right here has the base.
    fn end(&mut self, number: &mut Number, base: usize) {
        if let Some(value) = number.value {
            let _ = self.values.try_push(value.wrapping_add(number.base));
        }
        *number = Number { value: None, base };
    }

    pub fn read(line: &[u8]) -> Figures {
        let mut figures = Figures {
            values: ArrayVec::new(),
        };
        let mut number = Number {
            value: None,
            base: 0,
        };
        for byte in line {
            match *byte {
                b'0'..=b'9' => number.digit(*byte - b'0'),
                b'o' => figures.end(&mut number, 128),
                _ => figures.end(&mut number, 0),
            }
        }
        figures.end(&mut number, 0);
        figures
    }

    // The numbers from a place on.
    pub fn from(&self, k: usize) -> &[usize] {
        self.values.as_slice().get(k..).unwrap_or(&[])
    }

    // The number at a place of the line, or the other where the line has fewer.
    pub fn at(&self, k: usize, other: usize) -> usize {
        self.values.as_slice().get(k).copied().unwrap_or(other)
    }

    // The number at a place, as a byte; 0 where the line has fewer.
    pub fn byte_at(&self, k: usize) -> u8 {
        byte(self.at(k, 0))
    }

    // The last number of the line, as a byte.
    pub fn last(&self) -> u8 {
        byte(self.values.as_slice().last().copied().unwrap_or(0))
    }
}

pub fn byte(n: usize) -> u8 {
    (n % 256) as u8
}
