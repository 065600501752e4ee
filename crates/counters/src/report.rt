//! The report of a run.

ghost use Rattle.std.specs.Prelude.{◌≡◌, ◌+◌, ◌<◌, ◌≤◌, ◌++◌, length, OnOk, OnErr, IfOk, codes, decimal};
ghost use Rattle.counters.specs.Report.{line, port_lines, reason_lines, torn_line, report_lines, report_of};

use crate::counts::Counts;
use itoa::Buffer;
use std::alloc::{AllocError, Global};

impl Counts {
    /// Writes the report of a run with these counts: a line for each number, and whether the capture was torn. Returns
    /// `Err` if out of memory; the text is then unchanged.
    pub fn report(&self, alloc: Global, torn: bool, out: &mut Vec<u8>) -> Result<(), AllocError>
        ensures ok { OnOk result (out.new.items ≡ out.old.items ++ report_of self.now torn) }
        ensures err { OnErr result (out.new.items ≡ out.old.items) }
    {
        let text = self.text(alloc, torn)?;
        out.extend_from_slice(text.as_slice())
    }

    /// The text of the report.
    fn text(&self, alloc: Global, torn: bool) -> Result<Vec<u8>, AllocError>
        ensures { IfOk result (λ text. text.items ≡ report_of self.now torn) }
    {
        let mut text = Vec::new(alloc);
        write_lines(
            &mut text,
            self.records(),
            self.oversize(),
            self.sent(),
            self.dropped(),
            self.tagged(),
            torn,
        )?;
        Ok(text)
    }
}

/// The lines of the report.
fn write_lines(
    text: &mut Vec<u8>,
    records: u64,
    oversize: u64,
    sent: &[u64],
    dropped: &[u64],
    tagged: u64,
    torn: bool,
) -> Result<(), AllocError>
    requires ports { length sent.now ≤ 16 }
    requires reasons { length dropped.now ≡ 7 }
    ensures { OnOk result (text.new.items
        ≡ text.old.items ++ report_lines records oversize sent.now dropped.now tagged torn) }
{
    line(text, b"records", records)?;
    line(text, b"oversize", oversize)?;
    port_lines(text, sent)?;
    reason_lines(text, dropped)?;
    line(text, b"tagged", tagged)?;
    torn_line(text, torn)?;
    Ok(())
}

/// A name, a space and a number.
fn line(text: &mut Vec<u8>, name: &[u8], n: u64) -> Result<(), AllocError>
    ensures { OnOk result (text.new.items ≡ text.old.items ++ line name.now n) }
{
    let mut buffer = Buffer::new();
    text.extend_from_slice(name)?;
    text.extend_from_slice(b" ")?;
    text.extend_from_slice(buffer.format(n).as_bytes())?;
    text.extend_from_slice(b"\n")
}

/// A line for each port.
fn port_lines(text: &mut Vec<u8>, counts: &[u64]) -> Result<(), AllocError>
    requires { length counts.now ≤ 16 }
    ensures { OnOk result (text.new.items ≡ text.old.items ++ port_lines 0 counts.now) }
{
    for (port, n) in counts.iter().enumerate() {
        port_line(text, port, *n)?;
    }
    Ok(())
}

/// The line of a port.
fn port_line(text: &mut Vec<u8>, port: usize, n: u64) -> Result<(), AllocError>
    ensures { OnOk result (text.new.items ≡ text.old.items ++ line (codes "port " ++ decimal port) n) }
{
    let mut buffer = Buffer::new();
    text.extend_from_slice(b"port ")?;
    text.extend_from_slice(buffer.format(port).as_bytes())?;
    line(text, b"", n)
}

/// A line for each reason to drop a frame.
fn reason_lines(text: &mut Vec<u8>, dropped: &[u64]) -> Result<(), AllocError>
    requires { length dropped.now ≡ 7 }
    ensures { OnOk result (text.new.items ≡ text.old.items ++ reason_lines dropped.now) }
{
    line(text, b"short", dropped[0])?;
    line(text, b"not-ipv4", dropped[1])?;
    line(text, b"bad-header", dropped[2])?;
    line(text, b"bad-length", dropped[3])?;
    line(text, b"bad-checksum", dropped[4])?;
    line(text, b"expired", dropped[5])?;
    line(text, b"no-route", dropped[6])?;
    Ok(())
}

/// Whether the capture was torn.
fn torn_line(text: &mut Vec<u8>, torn: bool) -> Result<(), AllocError>
    ensures { OnOk result (text.new.items ≡ text.old.items ++ torn_line torn) }
{
    text.extend_from_slice(if torn { b"torn yes\n" } else { b"torn no\n" })
}
