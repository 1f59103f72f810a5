// The text of a whole answer, from the words of its patches, written into lent bytes.
#![tactic(auto)]

ghost use Rattle.std.specs.Prelude.{◌+◌, ◌≤◌, ◌<◌, ◌≡◌, length};
ghost use Rattle.entity.specs.Logic.{pick};
ghost use Rattle.print.specs.Put.{Room, Put};
ghost use Rattle.answer_text.specs.Heads.{is_head, count_in, made_in};
ghost use Rattle.answer_text.specs.Lines.{answer_line, refusal_text, answer_text, Printed};
ghost use Rattle.answer_text.specs.Fitting.{Fitted, Ended};

// Whether a word is a patch's head and no edit.
fn is_head(word: u64) -> bool
    ensures { result ≡ is_head word }
{
    word % 8 == 0
}

// How many edits a patch has, in its head.
fn count_in(word: u64) -> usize
    ensures { result ≡ count_in word }
{
    (word / 8 % 65536) as usize
}

// How many slots the function has made, in a patch's head.
fn made_in(word: u64) -> usize
    ensures { result ≡ made_in word }
{
    (word / 524288 % 65536) as usize
}

// The number of the next patch, after a word.
fn next_number(k: usize, word: u64) -> usize
    requires { k < 18446744073709551615 }
    ensures { result ≡ pick (is_head word) (k + 1) k }
{
    if is_head(word) {
        return k + 1;
    }
    k
}

// The line of a word: that of patch k, if the word is a head, else the edit's.
fn put_line(out: &mut [u8], n: usize, k: usize, word: u64) -> usize
    requires { Room out.old n (answer_line k word) }
    ensures { Put out.old out.new n (answer_line k word) result }
{
    if is_head(word) {
        return print::put_patch_line(out, n, k, count_in(word), made_in(word));
    }
    print::put_edit(out, n, word)
}

// A text if it fits: where it goes on.
fn put_fitting(out: &mut [u8], n: usize, text: &[u8]) -> Option<usize>
    requires { n ≤ length out.old }
    ensures { Fitted out.old out.new n text.now result }
{
    if text.len() <= out.len() - n {
        return Some(print::put_text(out, n, text));
    }
    None
}

// The line of a word if it fits.
fn put_word(out: &mut [u8], n: usize, k: usize, word: u64) -> Option<usize>
    requires { n ≤ length out.old }
    ensures { Fitted out.old out.new n (answer_line k word) result }
{
    let mut line = [0u8; 64];
    let m = put_line(&mut line, 0, k, word);
    put_fitting(out, n, &line[..m])
}

// The last line after a refusal, if it fits; 0 is none.
fn put_refusal(out: &mut [u8], n: usize, refusal: u8) -> usize
    requires { n ≤ length out.old }
    ensures { Ended out.old out.new n (refusal_text refusal) result }
{
    if refusal == 0 {
        return n;
    }
    let mut line = [0u8; 32];
    let m = print::put_refused(&mut line, 0, refusal as usize);
    match put_fitting(out, n, &line[..m]) {
        Some(end) => end,
        None => 0,
    }
}

// The text of the words and the refusal. If it does not fit, the lines that do, and 0.
pub fn put_answer(out: &mut [u8], words: &[u64], refusal: u8) -> usize
    ensures { Printed out.old out.new (answer_text words.now refusal) result }
{
    let mut n = 0;
    let mut k: usize = 1;
    for i in 0..words.len() {
        let word = words[i];
        let Some(end) = put_word(out, n, k, word) else {
            return 0;
        };
        n = end;
        k = next_number(k, word);
    }
    put_refusal(out, n, refusal)
}
