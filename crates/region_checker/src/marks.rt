//! Marks of nodes, spread along the paths of regions.
ghost use Rattle.std.specs.Prelude.{◌≡◌, ◌<◌, length, Some};
ghost use Rattle.region_checker.specs.links.MarkPropagation.{IsOn, IsBeyond, Marks, IsMarkPass, AreSpread};

use crate::paths::Path;

/// Marks the node, if there is that one. Whether the mark is new.
pub(crate) fn mark(marks: &mut [bool], node: Option<usize>) -> bool
    ensures { Marks (λ n. node ≡ Some n) marks.old marks.new result }
{
    match node {
        Some(number) => {
            if number < marks.len() && !marks[number] {
                marks[number] = true;
                true
            } else {
                false
            }
        }
        None => false,
    }
}

/// Marks the nodes to which the paths lead. Whether any mark is new.
fn mark_after(marks: &mut [bool], path: &Path) -> bool
    ensures { Marks (IsOn path.now) marks.old marks.new result }
{
    let next = mark(marks, path.next);
    let other = mark(marks, path.other);
    next || other
}

/// Marks the nodes after the one of this number, if it is marked and doesn't stop it. Whether any mark is new.
fn mark_from(marks: &mut [bool], paths: &[Path], stops: &[bool], number: usize) -> bool
    requires exists { number < length paths.now }
    requires paths { length paths.now ≡ length marks.old }
    requires stops { length stops.now ≡ length marks.old }
    ensures { Marks (IsBeyond paths.now stops.now marks.old number) marks.old marks.new result }
{
    if !marks[number] || stops[number] {
        return false;
    }
    mark_after(marks, &paths[number])
}

/// Marks the nodes after each marked one that doesn't stop it, from the first node to the last. Whether any mark is new.
fn spread_once(marks: &mut [bool], paths: &[Path], stops: &[bool]) -> bool
    requires paths { length paths.now ≡ length marks.old }
    requires stops { length stops.now ≡ length marks.old }
    ensures { IsMarkPass paths.now stops.now (length paths.now) marks.old marks.new result }
{
    let mut grows = false;
    for number in 0..paths.len() {
        if mark_from(marks, paths, stops, number) {
            grows = true;
        }
    }
    grows
}

/// Marks the nodes to which paths lead from marked ones, on which no node before them stops it. Passes go from the first node to
/// the last, and so with the text: as many as loops are nested come to an end, and one more.
pub(crate) fn spread(mut marks: Vec<bool>, paths: &[Path], stops: &[bool]) -> Vec<bool>
    requires paths { length paths.now ≡ length marks.items }
    requires stops { length stops.now ≡ length marks.items }
    ensures spread { AreSpread paths.now stops.now marks.items result.items }
    ensures long { length result.items ≡ length marks.items }
{
    while spread_once(&mut marks, paths, stops) {}
    marks
}
