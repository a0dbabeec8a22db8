// One run of the program: what it reads, the box that is polled, and the memory of its stations.
use crate::input::Input;
use crate::line_box::LineBox;
use anyhow::bail;
use line::reception::Reception;
use memory::WorkingMemory;
use octet_text::line::octet_line;
use std::io::{Read, Write};

#[derive(Drop)]
pub(crate) struct Session<'a> {
    rt: &'a HostRuntime,
    input: Input,
    line_box: LineBox,
    memory: WorkingMemory<'a>,
}

impl<'a> Session<'a> {
    pub(crate) fn new(
        rt: &'a HostRuntime,
        input: Input,
        line_box: LineBox,
        memory: WorkingMemory<'a>,
    ) -> Session<'a> {
        Session {
            rt,
            input,
            line_box,
            memory,
        }
    }

    // Hears the input to its end. Nothing says that it ends, so the turns of reading are counted.
    pub(crate) fn listen(&mut self) -> anyhow::Result<()> {
        let mut buffer = [0; 4096];
        // Kept: a loop with no end may wait for ever, which no function here may.
        for _ in 0..u64::MAX {
            let count = self.rt.stdin().read(&mut buffer)?;
            if count == 0 {
                return Ok(self.input.finish()?);
            }
            for character in &buffer[..count] {
                self.hear(*character)?;
            }
        }
        bail!("the input goes on after 18446744073709551615 turns of reading")
    }

    // Takes one octet of the input.
    fn hear(&mut self, character: u8) -> anyhow::Result<()> {
        let Some(octet) = self.input.take(character)? else {
            return Ok(());
        };
        let told = self.line_box.receive(octet, &mut self.memory)?;
        self.show(told)
    }

    // Prints what a reception told.
    fn show(&self, told: Reception) -> anyhow::Result<()> {
        match told {
            Reception::Nothing => {}
            Reception::Dropped(fault) => println!(self.rt; "dropped {}", fault.number())?,
            Reception::Answered { length, .. } => {
                let answer = self.line_box.answer();
                let end = length.min(answer.len());
                let line = octet_line(self.rt.alloc(), &answer[..end])?;
                self.rt.stdout().write_all(line.as_slice())?;
            }
        }
        Ok(())
    }
}
