// Where the words of a patch stand among those of an answer, for the price of an edge, which is a resolved patch (02 e).
#![tactic(auto)]

ghost use Rattle.std.specs.Prelude.{◌≡◌, drop};
ghost use Rattle.edges.specs.Patches.{headed, counted, patch_numbered, FoundIn};

// How many edits the patch has whose head stands at an offset; nothing, if no head stands there, or one that counts over 1,024 or beyond the words.
pub fn count_at(words: &[u64], at: usize) -> Option<usize>
    ensures { result ≡ counted (headed (drop at words.now)) }
{
    if words.len() <= at {
        return None;
    }
    let word = words[at];
    if word % 8 != 0 {
        return None;
    }
    let count = (word / 8 % 65536) as usize;
    if 1024 < count {
        return None;
    }
    if words.len() - at <= count {
        return None;
    }
    Some(count)
}

// The edits of a patch, counted from 1, of an answer's words: where they begin, and how many they are; nothing, if there is no such patch.
pub fn find(words: &[u64], patch: usize) -> Option<(usize, usize)>
    ensures { FoundIn words.now (patch_numbered patch words.now) result }
{
    let mut at = 0;
    for k in 0..patch {
        let count = count_at(words, at)?;
        let left = patch - k;
        if left == 1 {
            return Some((at + 1, count));
        }
        at += 1 + count;
    }
    None
}
