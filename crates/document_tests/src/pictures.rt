use crate::checks::{is_told, same};
use line_picture::*;
use shfl_line::Form;
use std::alloc::Global;
use std::process::Abort;

/// Waiter 3 is detached and put behind the shuffler; the third of the 4 events changes nothing.
const RELINK: &str = "shfl-line 1 form spin limit 1024 passes 4
1 step 3 yes word 257 hold w0 line 1:1,2:0,3:0 hand - role walk:1
2 step 1 yes word 257 hold w0 line 1:1,2:0 hand 3 role walk:1
3 write 3 no word 257 hold w0 line 1:1,2:0 hand 3 role walk:1
4 step 1 yes word 257 hold w0 line 1:1,3:2,2:0 hand - role rest:3
end yes 3 no 1
";

/// A reader takes the lock that a sleeping writer waits for.
const READER: &str = "shfl-line 2 profile 1 form rw-park limit 1 passes 2
1 read 0 yes word 0 hold - line - hand - role - asleep -
2 step 0 yes word 4294967296 hold r0 line 1:0 hand - role - asleep 1
end yes 2 no 0
";

/// Readers and writers, one pass of 64 in vain.
const REFUSED: &str = "shfl-line 1 form rw limit 1024 passes 64
1 free 63 no word 0 hold r0,r63 line - hand - role -
end yes 0 no 1
";

const NO_EVENTS: &str = "shfl-line 1 form park limit 1 passes 1\nend yes 0 no 0\n";

/// The report has this form, so many passes and so many events.
fn is_read(rt: &impl Abort, alloc: Global, text: &str, form: Form, passes: u32, events: usize) {
    let report = read_report(alloc, text.as_bytes()).expect(rt, "a report");
    same(rt, &report.form, &form);
    same(rt, &report.passes, &passes);
    same(rt, &report.rows.len(), &events);
}

#[test]
fn a_report_of_each_form_is_read(rt: HostRuntime) {
    let alloc = rt.alloc();
    is_read(&rt, alloc, RELINK, Form::Spin, 4, 4);
    is_read(&rt, alloc, READER, Form::RwPark, 2, 2);
    is_read(&rt, alloc, REFUSED, Form::Rw, 64, 1);
    is_read(&rt, alloc, NO_EVENTS, Form::Park, 1, 0);
}

const HEAD: &str = "shfl-line 1 form spin limit 1024 passes 1\n";

const ROW: &str = "1 write 0 yes word 0 hold - line - hand - role -\n";

/// Documents in three parts, and what is said of them.
const BAD: [(&str, &str, &str, &str); 16] = [
    ("", "", "", "line 1: fault 2"),
    ("\n", "", "", "line 1: fault 2"),
    ("shfl-line 1", "", "", "line 1: fault 1"),
    (
        "shfl-line 3 form spin limit 1 passes 1\n",
        "",
        "",
        "line 1: fault 2",
    ),
    (
        "shfl-line 1 form spin limit 1 passes 65\n",
        "",
        "",
        "line 1: fault 2",
    ),
    (HEAD, "", "", "line 2: fault 4"),
    (HEAD, "1 write 0 yes", "", "line 2: fault 1"),
    (
        HEAD,
        "0 write 0 yes word 0 hold - line - hand - role -\n",
        "",
        "line 2: fault 3",
    ),
    (
        HEAD,
        "1 read 0 yes word 0 hold - line - hand - role -\n",
        "",
        "line 2: fault 3",
    ),
    (
        HEAD,
        "1 write 1 yes word 0 hold - line - hand - role -\n",
        "",
        "line 2: fault 3",
    ),
    (
        HEAD,
        "1 write 0 yes word 0 hold r0 line - hand - role -\n",
        "",
        "line 2: fault 3",
    ),
    (HEAD, ROW, ROW, "line 3: fault 3"),
    (HEAD, ROW, "", "line 3: fault 4"),
    (HEAD, ROW, "end yes 2 no 0\n", "line 3: fault 4"),
    (HEAD, ROW, "end yes 1 no 0", "line 3: fault 1"),
    (HEAD, ROW, "end yes 1 no 0\n\n", "line 4: fault 5"),
];

/// The bytes are no report, which is told so.
fn is_refused(rt: &impl Abort, alloc: Global, bytes: &[u8], due: &str) {
    let error = read_report(alloc, bytes).err().expect(rt, "a refusal");
    is_told(rt, alloc, &error, due);
}

#[test]
fn a_bad_report_is_named_by_line_and_fault(rt: HostRuntime) {
    let alloc = rt.alloc();
    for (first, second, third, due) in BAD {
        let document = format!(in alloc; "{first}{second}{third}").expect(&rt, "memory");
        is_refused(&rt, alloc, document.as_bytes(), due);
    }
}

const RELINK_TEXT: &str = "event             lock        shuffler detached holders queue
1     step  3     held closed walk:1   -        w0      1:1,2:0,3:0
2     step  1     held closed walk:1   3        w0      1:1,2:0
4     step  1     held closed rest:3   -        w0      1:1,3:2,2:0
";

const READER_TEXT: &str =
    "event             lock        readers shuffler detached asleep holders queue
2     step  0     free open   1       -        -        1      r0      1:0
";

/// The report is written so as text.
fn is_written(rt: &impl Abort, alloc: Global, document: &str, text: &str) {
    let report = read_report(alloc, document.as_bytes()).expect(rt, "a report");
    let picture = text_picture(alloc, &report, false).expect(rt, "memory");
    same(rt, &picture.as_slice(), &text.as_bytes());
}

#[test]
fn a_report_is_written_as_text(rt: HostRuntime) {
    let alloc = rt.alloc();
    is_written(&rt, alloc, RELINK, RELINK_TEXT);
    is_written(&rt, alloc, READER, READER_TEXT);
}

/// How many of the lines begin so.
fn count_lines(text: &[u8], front: &[u8]) -> usize {
    text.split(|b| *b == b'\n')
        .filter(|line| line.starts_with(front))
        .count()
}

/// The drawing has so many rows, and the text so many lines.
fn has_rows(rt: &impl Abort, alloc: Global, all: bool, rows: usize, lines: usize) {
    let report = read_report(alloc, RELINK.as_bytes()).expect(rt, "a report");
    let text = text_picture(alloc, &report, all).expect(rt, "memory");
    let svg = svg_picture(alloc, &report, all).expect(rt, "memory");
    same(rt, &count_lines(text.as_slice(), b""), &lines);
    same(rt, &count_lines(svg.as_slice(), b"<g><title>"), &rows);
}

#[test]
fn an_svg_has_as_many_rows_as_the_text(rt: HostRuntime) {
    let alloc = rt.alloc();
    // the text has two lines more: its heading, and what is behind its last line feed
    has_rows(&rt, alloc, false, 3, 5);
    has_rows(&rt, alloc, true, 4, 6);
}

#[test]
fn each_fault_is_told(rt: HostRuntime) {
    let alloc = rt.alloc();
    let format = ReportError::Format { line: 7, what: 2 };
    is_told(&rt, alloc, &format, "line 7: fault 2");
    is_told(&rt, alloc, &ReportError::NoMemory, "out of memory");
}
