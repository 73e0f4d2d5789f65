// What the rules of walking name (document 01, "Walking", rules 1, 3 and 4): an unvisited link, or nothing. The definitions of these rules stand in specs/.
#![tactic(auto)]

ghost use Rattle.std.specs.Prelude.{◌<◌, length};
ghost use Rattle.next.specs.Promises.{OnlyUnvisitedSays};

// A link that the rule names, if it is unvisited.
pub fn only_unvisited(state: &[u8], k: usize) -> Option<usize>
    requires { k < length state.now }
    ensures { OnlyUnvisitedSays state.now k result }
{
    if state[k] == 0 {
        return Some(k);
    }
    None
}
