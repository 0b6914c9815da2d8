// Reports on distortion in three phases.
use crate::answers::{Case, assert_cases};
use crate::studies::{COILS, PHASE_A};
use std::test::Fail;

/// 100 amperes of phase a are seen in phase a alone. A current where there is no path to ground, of 0 too, leaves its order without a solution.
#[test]
fn three_phases(rt: HostRuntime) -> Result<(), Fail> {
    let cases = [
        Case {
            study: COILS,
            spectrum: "order,bus,phase,re,im\n5,B1,a,100,0\n",
            levels: None,
            answer: (
                3,
                "voltage,B1,a,5,8.6602,8.6603,3.0000,fail\nvoltage,B1,b,5,0.0000,0.0000,3.0000,pass\nvoltage,B1,c,5,0.0000,0.0000,3.0000,pass\nthd,B1,a,8.6602,8.6603,5.0000,fail\nthd,B1,b,0.0000,0.0000,5.0000,pass\nthd,B1,c,0.0000,0.0000,5.0000,pass\nsummary,limits,4,2,0\nend,3\n",
                "",
            ),
        },
        Case {
            study: PHASE_A,
            spectrum: "order,bus,phase,re,im\n5,B1,b,0,0\n",
            levels: None,
            answer: (
                4,
                "voltage,B1,a,5,-,-,3.0000,undecided\nthd,B1,a,-,-,5.0000,undecided\nthd,B1,b,0.0000,0.0000,5.0000,pass\nthd,B1,c,0.0000,0.0000,5.0000,pass\nsummary,limits,2,0,2\nend,4\n",
                "",
            ),
        },
        Case {
            study: COILS,
            spectrum: "order,bus,phase,re,im\n5,B1,d,1,0\n",
            levels: None,
            answer: (2, "", "harmscan: spectrum refused: 7 BadPhase 1\n"),
        },
    ];
    assert_cases(&rt, rt.alloc(), &cases)
}
