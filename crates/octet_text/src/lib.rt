// Octets as text, for people: hexadecimal text is read, and lines of octets are written.

#![tactic(auto)]

mod digit;
pub mod fault;
mod hear;
pub mod line;
mod position;
mod read;
pub mod reader;
pub mod text;

#[cfg(test)]
mod tests {
    use crate::fault::{TextFault, TextProblem};
    use crate::line::octet_line;
    use crate::text::{ReadFault, read_text};
    use std::alloc::Global;
    use std::test::Fail;

    fn refusal(heap: Global, text: &[u8]) -> Option<TextFault> {
        match read_text(heap, text) {
            Err(ReadFault::Text(fault)) => Some(fault),
            _ => None,
        }
    }

    fn fault(line: u64, column: u64, problem: TextProblem) -> Option<TextFault> {
        Some(TextFault {
            line,
            column,
            problem,
        })
    }

    #[test]
    fn text_is_read(rt: HostRuntime) -> Result<(), Fail> {
        let heap = rt.alloc();
        let poll = read_text(heap, b"# a poll\n05 53\t30# its head\r\n4a4B\n#")?;
        assert!(rt; poll.as_slice() == [0x05, 0x53, 0x30, 0x4A, 0x4B].as_slice());
        assert!(rt; read_text(heap, b"")?.is_empty());
        Ok(())
    }

    #[test]
    fn faults_are_placed(rt: HostRuntime) {
        let heap = rt.alloc();
        assert_eq!(rt; refusal(heap, b"0G"), fault(1, 2, TextProblem::NotADigit));
        assert_eq!(rt; refusal(heap, b"5 3"), fault(1, 2, TextProblem::NotADigit));
        assert_eq!(rt; refusal(heap, b"05 5"), fault(1, 5, TextProblem::HalfAPair));
        assert_eq!(rt; refusal(heap, b"0#"), fault(1, 2, TextProblem::NotADigit));
        assert_eq!(rt;
            refusal(heap, b"05 # G\n 53 x"),
            fault(2, 5, TextProblem::NotADigit)
        );
        assert_eq!(rt;
            refusal(heap, b"05\n5"),
            fault(2, 2, TextProblem::HalfAPair)
        );
    }

    #[test]
    fn faults_are_printed(rt: HostRuntime) -> Result<(), Fail> {
        let fault = TextFault {
            line: 2,
            column: 5,
            problem: TextProblem::HalfAPair,
        };
        let printed = format!(in rt.alloc(); "{fault}")?;
        assert_eq!(rt;
            printed.as_str(),
            "line 2, column 5: the text ends inside a pair"
        );
        Ok(())
    }

    #[test]
    fn line_is_written(rt: HostRuntime) -> Result<(), Fail> {
        let heap = rt.alloc();
        assert!(rt; octet_line(heap, &[0x05, 0x0D, 0xAF])?.as_slice() == b"05 0D AF\n".as_slice());
        assert!(rt; octet_line(heap, &[])?.as_slice() == b"\n".as_slice());
        Ok(())
    }
}
