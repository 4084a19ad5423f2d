// What is counted over a list of lines.
use line::ev::AxisOrBtn;
use line::mapping::Mapping;
use line::reading::SdlMapping;
use std::io;

// One more than the greatest number of a refused reading.
const NUMBERS: usize = 13;

// Sums over the accepted lines, and how many lines were refused by each number.
#[derive(Default, Drop)]
pub struct Figures {
    lines: u64,
    accepted: u64,
    entries: u64,
    hats: u64,
    names: u64,
    codes: u64,
    elements: u64,
    refused: [u64; NUMBERS],
}

impl Figures {
    // One line more.
    pub fn add_line(&mut self, reading: &SdlMapping) {
        self.lines = self.lines.wrapping_add(1);
        match reading.answer {
            Ok(()) => self.accept(&reading.map),
            Err(e) => self.refuse(e.refusal().number),
        }
    }

    fn refuse(&mut self, number: u8) {
        if let Some(lines) = self.refused.get_mut(number as usize) {
            *lines = lines.wrapping_add(1);
        }
    }

    fn accept(&mut self, map: &Mapping) {
        self.accepted = self.accepted.wrapping_add(1);
        self.entries = self.entries.wrapping_add(map.count as u64);
        self.hats = self.hats.wrapping_add(map.hats_mapped as u64);
        self.names = self.names.wrapping_add(map.name_len as u64);
        for e in map.entries.iter().take(map.count) {
            self.codes = self.codes.wrapping_add(e.code.0 as u64);
            self.elements = self.elements.wrapping_add(element_number(e.element));
        }
    }

    // Another list's lines, accepted ones and entries more.
    pub fn add_list(&mut self, list: &Figures) {
        self.lines = self.lines.wrapping_add(list.lines);
        self.accepted = self.accepted.wrapping_add(list.accepted);
        self.entries = self.entries.wrapping_add(list.entries);
    }

    pub fn say(&self, rt: &impl Print) -> io::Result<()> {
        let Figures {
            lines,
            accepted,
            entries,
            ..
        } = self;
        print!(rt; ": {lines} lines, accepted {accepted}, entries {entries}")
    }

    pub fn say_sums(&self, rt: &impl Print) -> io::Result<()> {
        let Figures {
            hats,
            names,
            codes,
            elements,
            ..
        } = self;
        print!(rt; ", hat flags {hats}, name bytes {names}, codes {codes}, elements {elements}")?;
        for (number, lines) in self.refused.iter().enumerate().skip(1) {
            if 0 < *lines {
                print!(rt; ", refused by {number}: {lines}")?;
            }
        }
        Ok(())
    }
}

fn element_number(e: AxisOrBtn) -> u64 {
    match e {
        AxisOrBtn::Axis(a) => a.0 as u64,
        AxisOrBtn::Btn(b) => b.0 as u64,
    }
}
