//! The texts of a report's single lines.
ghost use Rattle.std.specs.Prelude.{◌≡◌, [], ◌∷◌, ◌++◌, OnOk};
ghost use Rattle.cmd_report.specs.EntryLines.{first_body};
ghost use Rattle.cmd_report.specs.ReportText.{moment_text, fields_text, break_text, conn_end_text, mark_text, refused_why_text, after_text, total_text};

use crate::printed::{Printed, append_field, append_number, append_number_field};
use crate::report::{
    ConnEnd, ConnLine, EntryLine, HeldLine, LoggedLine, PageLine, RefusedLine, RefusedWhy,
    SaidLine, SaidMark, TakeLine, UnderwayLine,
};
use base_io::{Bytes, NoMemory, Text};
use mam_archive::Bodies;

fn print_moment(out: &mut Bytes, moment: Option<u64>) -> Result<(), NoMemory>
    ensures { OnOk result (out.new.items ≡ out.old.items ++ moment_text moment) }
{
    match moment {
        None => Ok(()),
        Some(moment) => append_number_field(out, moment),
    }
}

impl Printed for TakeLine {
    ghost use Rattle.cmd_report.specs.ReportText.{take_text};

    ghost text = { take_text };

    fn print(&self, out: &mut Bytes) -> Result<(), NoMemory> {
        out.append(b"take ")?;
        out.append(self.device.as_str().as_bytes())?;
        append_number_field(out, self.epoch)?;
        append_number_field(out, self.n)?;
        append_field(out, self.account.as_str())?;
        print_moment(out, self.moment)?;
        out.push(b'\n')
    }
}

/// The first body's text, or an empty one. It borrows.
fn first_text(bodies: &Bodies) -> &str
    ensures { result.now ≡ first_body bodies.now.items }
{
    match bodies.as_slice() {
        [] => "",
        [first, ..] => first.text.as_str(),
    }
}

/// The fields of an entry, in an archive and in a log alike.
fn print_fields(out: &mut Bytes, entry: &EntryLine) -> Result<(), NoMemory>
    ensures { OnOk result (out.new.items ≡ out.old.items ++ fields_text entry.now) }
{
    let message = entry.message();
    out.append(entry.id().as_bytes())?;
    append_number_field(out, message.stamp)?;
    append_field(out, message.from.as_str())?;
    append_field(out, message.to.as_str())?;
    append_field(out, message.origin.as_str())?;
    append_field(out, first_text(&message.bodies))?;
    out.push(b'\n')
}

impl Printed for EntryLine {
    ghost use Rattle.cmd_report.specs.ReportText.{entry_text};

    ghost text = { entry_text };

    fn print(&self, out: &mut Bytes) -> Result<(), NoMemory> {
        out.append(b"entry ")?;
        print_fields(out, self)
    }
}

fn break_line(broken: bool) -> &'static str
    ensures { result.now ≡ break_text broken }
{
    if broken { "break\n" } else { "" }
}

impl Printed for LoggedLine {
    ghost use Rattle.cmd_report.specs.ReportText.{logged_text};

    ghost text = { logged_text };

    fn print(&self, out: &mut Bytes) -> Result<(), NoMemory> {
        out.append(break_line(self.broken).as_bytes())?;
        out.append(b"logged ")?;
        print_fields(out, &self.entry)
    }
}

fn end_name(end: ConnEnd) -> &'static str
    ensures { result.now ≡ conn_end_text end }
{
    match end {
        ConnEnd::Cut => "cut",
        ConnEnd::Left => "left",
        ConnEnd::Shut => "shut",
        ConnEnd::Open => "open",
    }
}

impl Printed for ConnLine {
    ghost use Rattle.cmd_report.specs.ReportText.{conn_text};

    ghost text = { conn_text };

    fn print(&self, out: &mut Bytes) -> Result<(), NoMemory> {
        out.append(b"conn ")?;
        append_number(out, self.k)?;
        append_field(out, self.device.as_str())?;
        append_number_field(out, self.upput)?;
        append_number_field(out, self.uptaken)?;
        append_number_field(out, self.downput)?;
        append_number_field(out, self.downtaken)?;
        append_field(out, end_name(self.end))?;
        out.push(b'\n')
    }
}

fn mark_name(state: SaidMark) -> &'static str
    ensures { result.now ≡ mark_text state }
{
    match state {
        SaidMark::Acknowledged => "acknowledged",
        SaidMark::Waiting => "waiting",
        SaidMark::Undecided => "undecided",
    }
}

impl Printed for SaidLine {
    ghost use Rattle.cmd_report.specs.ReportText.{said_text};

    ghost text = { said_text };

    fn print(&self, out: &mut Bytes) -> Result<(), NoMemory> {
        out.append(b"said ")?;
        append_number(out, self.epoch)?;
        append_number_field(out, self.n)?;
        append_field(out, mark_name(self.state))?;
        append_field(out, self.to.as_str())?;
        append_field(out, self.text.as_str())?;
        out.push(b'\n')
    }
}

fn why_name(why: RefusedWhy) -> &'static str
    ensures { result.now ≡ refused_why_text why }
{
    match why {
        RefusedWhy::NotBound => "NotBound",
        RefusedWhy::OutboxFull => "OutboxFull",
        RefusedWhy::Underway => "Underway",
    }
}

impl Printed for RefusedLine {
    ghost use Rattle.cmd_report.specs.ReportText.{refused_text};

    ghost text = { refused_text };

    fn print(&self, out: &mut Bytes) -> Result<(), NoMemory> {
        out.append(b"refused ")?;
        append_number(out, self.line)?;
        append_field(out, why_name(self.why))?;
        out.push(b'\n')
    }
}

fn after_name(after: &Option<Text>) -> &str
    ensures { result.now ≡ after_text after.now }
{
    match after {
        None => "-",
        Some(id) => id.as_str(),
    }
}

fn print_total(out: &mut Bytes, total: Option<u64>) -> Result<(), NoMemory>
    ensures { OnOk result (out.new.items ≡ out.old.items ++ 32 ∷ total_text total) }
{
    match total {
        None => append_field(out, "more"),
        Some(total) => {
            append_field(out, "complete")?;
            append_number_field(out, total)
        }
    }
}

impl Printed for PageLine {
    ghost use Rattle.cmd_report.specs.ReportText.{page_text};

    ghost text = { page_text };

    fn print(&self, out: &mut Bytes) -> Result<(), NoMemory> {
        out.append(b"page ")?;
        out.append(after_name(&self.after).as_bytes())?;
        append_number_field(out, self.count)?;
        print_total(out, self.total)?;
        out.push(b'\n')
    }
}

impl Printed for UnderwayLine {
    ghost use Rattle.cmd_report.specs.ReportText.{underway_text};

    ghost text = { underway_text };

    fn print(&self, out: &mut Bytes) -> Result<(), NoMemory> {
        out.append(b"underway ")?;
        out.append(self.queryid.as_str().as_bytes())?;
        append_number_field(out, self.got)?;
        out.push(b'\n')
    }
}

impl Printed for HeldLine {
    ghost use Rattle.cmd_report.specs.ReportText.{held_text};

    ghost text = { held_text };

    fn print(&self, out: &mut Bytes) -> Result<(), NoMemory> {
        out.append(b"held ")?;
        out.append(self.id.as_str().as_bytes())?;
        out.push(b'\n')
    }
}
