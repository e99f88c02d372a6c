// A plan's text: the lines of steps read at once, other lines byte by byte.
ghost use Rattle.std.specs.Prelude.{◌≡◌, true, ◌+◌, ◌*◌, ◌-◌, ◌^◌, ◌<◌, ◌≤◌, length, IfSome};
ghost use Rattle.task.specs.Limits.{MAX_TEXT};
ghost use Rattle.text.specs.Area.{written};
ghost use Rattle.plan_lines.specs.PlanText.{as_byte, lines_of, read_lines};
ghost use Rattle.plan_lines.specs.declared.scan.Mode.TheVariants.{Opening, Letter, Digits};
ghost use Rattle.plan_lines.specs.Scan.{follow, next_line, advance, is_opening, count as count_of, counted, begun, step_of, step_at, at_line, start, steps_from};
ghost use Rattle.plan_lines.specs.Scan.{Numbered, Closes, Begins};

// What stands of a line: nothing, `;`, `(`, `(a`, `(a0`, `(aN` and `(aN)` with its number, or another form.
#[derive(Clone, Copy, PartialEq, Eq)]
pub enum Mode {
    Opening,
    Comment,
    Bracket,
    Letter,
    Zero,
    Digits(u8),
    Closed(u8),
    Other,
}

// The present line, its number, and how many steps stand in the lines before.
#[derive(Clone, Copy, PartialEq, Eq)]
pub struct Scan {
    pub mode: Mode,
    pub line: usize,
    pub steps: usize,
}

// A number with one digit more, 255 where it is larger.
fn with_digit(n: u8, b: u8) -> u8
    requires { 48 ≤ b }
    ensures { result ≡ as_byte (10 * n + (b - 48)) }
{
    n.saturating_mul(10).saturating_add(b - b'0')
}

fn after_opening(b: u8) -> Mode
    ensures { result ≡ follow Opening b }
{
    if b == b';' {
        Mode::Comment
    } else if b == b'(' {
        Mode::Bracket
    } else {
        Mode::Other
    }
}

fn after_letter(b: u8) -> Mode
    ensures { result ≡ follow Letter b }
{
    if b == b'0' {
        return Mode::Zero;
    }
    if b.is_ascii_digit() {
        Mode::Digits(b - b'0')
    } else {
        Mode::Other
    }
}

fn after_digits(n: u8, b: u8) -> Mode
    ensures { result ≡ follow (Digits n) b }
{
    if b == b')' {
        Mode::Closed(n)
    } else if b.is_ascii_digit() {
        Mode::Digits(with_digit(n, b))
    } else {
        Mode::Other
    }
}

// A line after one byte more.
fn after_byte(m: Mode, b: u8) -> Mode
    ensures { result ≡ follow m b }
{
    match m {
        Mode::Opening => after_opening(b),
        Mode::Comment => Mode::Comment,
        Mode::Bracket => if b == b'a' { Mode::Letter } else { Mode::Other },
        Mode::Letter => after_letter(b),
        Mode::Zero => if b == b')' {
            Mode::Closed(0)
        } else {
            Mode::Other
        },
        Mode::Digits(n) => after_digits(n, b),
        Mode::Closed(_) => Mode::Other,
        Mode::Other => Mode::Other,
    }
}

// At the start of a line, after so many steps.
fn at_line(line: usize, steps: usize) -> Scan
    ensures { result ≡ at_line line steps }
{
    Scan {
        mode: Mode::Opening,
        line,
        steps,
    }
}

// Behind a newline.
fn after_newline(m: Mode, line: usize, steps: usize) -> Scan
    requires { (line + 1 < 2 ^ 64) × (steps + 1 < 2 ^ 64) }
    ensures { result ≡ next_line m line steps }
{
    match m {
        Mode::Comment => at_line(line + 1, steps),
        Mode::Closed(_) => at_line(line + 1, steps + 1),
        _ => Scan {
            mode: Mode::Other,
            line,
            steps,
        },
    }
}

fn advanced(s: Scan, b: u8) -> Scan
    requires { (s.line + 1 < 2 ^ 64) × (s.steps + 1 < 2 ^ 64) }
    ensures { result ≡ advance s b }
{
    let m = s.mode;
    if b == b'\n' {
        after_newline(m, s.line, s.steps)
    } else {
        Scan {
            mode: after_byte(m, b),
            line: s.line,
            steps: s.steps,
        }
    }
}

// Whether no line is begun.
pub fn between_lines(s: Scan) -> bool
    ensures { result ≡ is_opening s.mode }
{
    s.mode == Mode::Opening
}

// The line of a step at the start of a text, and how many bytes it has.
#[derive(Clone, Copy, PartialEq, Eq)]
pub struct StepLine {
    pub step: u8,
    pub size: usize,
}

// The line of step n, where `)` and a newline stand from byte k on.
fn closed_line(t: &[u8], k: usize, n: u8) -> Option<StepLine>
    requires { k + 2 ≤ length t.now }
    ensures { IfSome result (λ l. Closes t.now k n l.step l.size) }
{
    if t[k] != b')' || t[k + 1] != b'\n' {
        return None;
    }
    Some(StepLine {
        step: n,
        size: k + 2,
    })
}

// The line of a step whose number has the first digit given. One of 250 or more is not looked for.
fn numbered_line(t: &[u8], first: u8) -> Option<StepLine>
    requires { (3 ≤ length t.now) × Numbered t.now 3 first }
    ensures { IfSome result (λ l. Begins t.now l.step l.size) }
{
    let mut n = first;
    for k in 3..t.len() - 1 {
        let b = t[k];
        if !b.is_ascii_digit() {
            return closed_line(t, k, n);
        }
        if n == 0 || 24 < n {
            return None;
        }
        n = 10 * n + (b - b'0');
    }
    None
}

// The line of a step that a text begins with.
fn step_line(t: &[u8]) -> Option<StepLine>
    ensures { IfSome result (λ l. Begins t.now l.step l.size) }
{
    if t.len() < 5 || t[0] != b'(' || t[1] != b'a' {
        return None;
    }
    let b = t[2];
    if !b.is_ascii_digit() {
        return None;
    }
    numbered_line(t, b - b'0')
}

// The line of a step that begins here, where no line is begun.
fn line_here(s: Scan, t: &[u8]) -> Option<StepLine>
    ensures { IfSome result (λ l. (is_opening s.mode ≡ true) × Begins t.now l.step l.size) }
{
    if between_lines(s) { step_line(t) } else { None }
}

// Writes the step of a line.
fn put_step(m: Mode, out: &mut [u8], at: usize)
    requires { at + 1 < 2 ^ 64 }
    ensures { out.new ≡ written (step_of m) at out.old }
{
    if let Mode::Closed(n) = m {
        text::put_byte(out, at, n);
    }
}

// Writes the step that comes with a byte.
fn put_byte(m: Mode, b: u8, out: &mut [u8], at: usize)
    requires { at + 1 < 2 ^ 64 }
    ensures { out.new ≡ written (step_at m b) at out.old }
{
    if b == b'\n' {
        put_step(m, out, at);
    }
}

// Writes the steps of a text, as far as the area reaches, and counts them, up to its faulty line: a step's line at once, any other byte
// by byte.
pub fn fill(text: &[u8], out: &mut [u8]) -> Scan
    requires { length text.now ≤ MAX_TEXT }
    ensures out_after { out.new ≡ written (steps_from start text.now) 0 out.old }
    ensures result_value { counted result ≡ count_of 0 (read_lines 0 (lines_of text.now)) }
    ensures mode_in_bounds { (result.line + begun result.mode ≤ length text.now) × (result.steps ≤ length text.now) }
{
    let mut s = at_line(0, 0);
    let mut i = 0;
    while i < text.len() {
        if let Some(l) = line_here(s, &text[i..]) {
            text::put_byte(&mut *out, s.steps, l.step);
            s = at_line(s.line + 1, s.steps + 1);
            i += l.size;
        } else {
            let b = text[i];
            let m = s.mode;
            put_byte(m, b, &mut *out, s.steps);
            s = advanced(s, b);
            i += 1;
        }
    }
    s
}
