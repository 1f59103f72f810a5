// A formula's call by groups in a frame (02 k and l), beside those of crate `frame_calls`. All groups of a call have one grant, as the formula has
// one share.
#![tactic(auto)]

ghost use Rattle.std.specs.Prelude.{◌<◌, length};
ghost use Rattle.entity.specs.Logic.{Anything};
ghost use Rattle.function.specs.Known.{Checked};
ghost use Rattle.frame_table.specs.Table.{number_of};
ghost use Rattle.frame_table.specs.Held.{FrameOk};
ghost use Rattle.frame_calls.specs.Given.{InFrame};
ghost use Rattle.frame_calls.specs.Answers.{GivesIn};
ghost use Rattle.frame_groups.specs.Answer.{groups_answer};

use carried::Carried;
use edit::Edits;
use entries::Entries;
use frame_table::Frame;
use function::Function;
use groups::{Labels, Owners};
use parallel_moves::Resolved;
use reginfo::RegInfo;
use scratch::Diversions;
use slots::{EmergencySpillSlotCache, Slots};
use small_set::RegUnitSet;
use sparse::SparseMap;
use visits::States;

// Resolves by groups a patch of formula i, of free units, rising, and of entries as numbers, four to an entry. Asked is as for `frame_calls::resolve_in`. A
// refusal leaves the frame, the list and the cache as they were.
pub fn resolve_groups_in(
    frame: &mut Frame,
    i: usize,
    t: &RegInfo,
    f: &Function,
    free: &[u32],
    numbers: &[u32],
    cache: &mut EmergencySpillSlotCache,
    list: &mut [u64],
    units: &mut RegUnitSet,
    e: &mut Entries,
    w: &mut SparseMap,
    available: &mut RegUnitSet,
    sources: &mut RegUnitSet,
    edits: &mut Edits,
    slots: &mut Slots,
    d: &mut Diversions,
    marks: &mut States,
    c: &mut Carried,
    owners: &mut Owners,
    labels: &mut Labels,
    next: &mut Labels,
    common: &mut RegUnitSet,
    work: &mut EmergencySpillSlotCache,
    joined: &mut [u64; 1024],
) -> Resolved
    requires { Checked t.now f.now × FrameOk frame.old × (i < number_of frame.old) × InFrame frame.old f.now cache.old }
    ensures gives_in { GivesIn frame.old frame.new i f.now (groups_answer frame.old i t.now f.now free.now numbers.now (length list.old) cache.old) result list.old list.new cache.old cache.new }
    ensures anything { Anything units.new × Anything e.new × Anything w.new × Anything available.new × Anything sources.new × Anything edits.new × Anything slots.new × Anything d.new × Anything marks.new × Anything c.new }
    ensures anything_2 { Anything owners.new × Anything labels.new × Anything next.new × Anything common.new × Anything work.new × Anything joined.new }
{
    let g = frame_calls::grant(frame, i);
    match group_calls::resolve_groups_granted(
        g, t, f, free, numbers, cache, list, units, e, w, available, sources, edits, slots, d,
        marks, c, owners, labels, next, common, work, joined,
    ) {
        Resolved::Refused(k) => Resolved::Refused(k),
        Resolved::Edits(n, met) => {
            frame_table::go_on(frame, i, slots::made(cache));
            Resolved::Edits(n, met)
        }
    }
}
