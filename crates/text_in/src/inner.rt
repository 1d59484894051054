// The parts of a text: total, and no door.
ghost use Rattle.std.specs.Prelude.{◌≡◌, ◌==◌, position};
ghost use Rattle.text_in.specs.Text.{is_text, is_blank};
ghost use Rattle.text_in.specs.Promises.{IsText, Finds, Before, Past, After, Trims, SkipsSpaces, Is, SkipsBlanks, DropsBlanks};

fn plain(b: u8) -> bool
    ensures { result ≡ is_text b }
{
    if b < 32 {
        return b == b'\t' || b == b'\r';
    }
    b < 127
}

// Every byte is one that a line may have. No way out before the end: the machine then looks at many bytes at once.
pub fn is_text(s: &[u8]) -> bool
    ensures { IsText s.now result }
{
    let mut all = true;
    for b in s {
        all = plain(*b) & all;
    }
    all
}

fn place(s: &[u8], mark: u8) -> Option<usize>
    ensures { result ≡ position (λ b. b == mark) s.now }
{
    s.iter().position(|b| *b == mark)
}

// Where a byte stands first; the length where it does not.
pub fn find(s: &[u8], mark: u8) -> usize
    ensures { Finds s.now mark result }
{
    place(s, mark).unwrap_or(s.len())
}

// What comes before the first such byte; all where there is none.
pub fn text_before(s: &[u8], mark: u8) -> &[u8]
    ensures { Before s.now mark result.now }
{
    let end = find(s, mark);
    &s[..end]
}

// Where what comes after it begins; the length where there is none.
pub fn past(s: &[u8], mark: u8) -> usize
    ensures { Past s.now mark result }
{
    let end = find(s, mark);
    if end == s.len() {
        return end;
    }
    end + 1
}

// What comes after it; nothing where there is none.
pub fn text_after(s: &[u8], mark: u8) -> &[u8]
    ensures { After s.now mark result.now }
{
    let begin = past(s, mark);
    &s[begin..]
}

fn blank(b: u8) -> bool
    ensures { result ≡ is_blank b }
{
    if b == b' ' {
        return true;
    }
    b == b'\t' || b == b'\r'
}

fn skip_blanks(s: &[u8]) -> &[u8]
    ensures { SkipsBlanks s.now result.now }
{
    let mut t = s;
    while t.len() > 0 {
        if !blank(t[0]) {
            return t;
        }
        t = &t[1..];
    }
    t
}

fn drop_blanks(s: &[u8]) -> &[u8]
    ensures { DropsBlanks s.now result.now }
{
    let mut t = s;
    while t.len() > 0 {
        let last = t.len() - 1;
        if !blank(t[last]) {
            return t;
        }
        t = &t[..last];
    }
    t
}

// The text without spaces, tabs and CR at its ends.
pub fn trim(s: &[u8]) -> &[u8]
    ensures { Trims s.now result.now }
{
    drop_blanks(skip_blanks(s))
}

// The text without the spaces at its front.
pub fn skip_spaces(s: &[u8]) -> &[u8]
    ensures { SkipsSpaces s.now result.now }
{
    let mut t = s;
    while t.len() > 0 {
        if t[0] != b' ' {
            return t;
        }
        t = &t[1..];
    }
    t
}

// Two texts are the same.
pub fn is(s: &[u8], word: &[u8]) -> bool
    ensures { Is s.now word.now result }
{
    s == word
}
