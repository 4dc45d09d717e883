//! Groups as they are written: members joined by dashes, groups by commas.
use families::masks::{bit, contains};
use std::fmt;

// A group by its number.
#[derive(Clone, Copy)]
pub struct Group(pub u64);

impl fmt::Display for Group {
    fn fmt<W: fmt::Write>(&self, f: &mut fmt::Formatter<W>) -> fmt::Result {
        let mut dash = "";
        for member in 1..=48u32 {
            let Some(weight) = bit(member) else {
                continue;
            };
            if contains(self.0, weight) {
                write!(f, "{dash}{member}")?;
                dash = "-";
            }
        }
        Ok(())
    }
}
