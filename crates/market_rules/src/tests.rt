use crate::{LegResult, leg_result};
use scan_types::{HandicapLine, Selection, TotalLine};
use std::test::Fail;

// By hand: home +0.5 at 1-1 leads by half a goal, away at the same line trails by it; 3 goals push at 3.
#[test]
fn settles_each_market(rt: HostRuntime) -> Result<(), Fail> {
    let line = HandicapLine::new(2).ok_or("line")?;
    let total = TotalLine::new(12).ok_or("total")?;
    assert_eq!(rt; leg_result(Selection::Draw, 0, 1, 1), LegResult::Win);
    assert_eq!(rt; leg_result(Selection::Home, 0, 1, 1), LegResult::Lose);
    assert_eq!(rt;
        leg_result(Selection::HandicapHome(line), 2, 1, 1),
        LegResult::Win
    );
    assert_eq!(rt;
        leg_result(Selection::HandicapAway(line), 2, 1, 1),
        LegResult::Lose
    );
    assert_eq!(rt;
        leg_result(Selection::Over(total), 12, 2, 1),
        LegResult::Push
    );
    assert_eq!(rt;
        leg_result(Selection::Under(total), 12, 2, 2),
        LegResult::Lose
    );
    Ok(())
}
