// Reports on distortion, worked by hand. 100 amperes are 0.01 per unit; at order 5 the coil of one ohm has 0.05 per unit there, and the
// square of the distortion is 3 times 0.0025.
use crate::answers::{Case, assert_cases};
use crate::studies::{AT_20, BELOW_20, COIL, FIFTH};
use std::test::Fail;

#[test]
fn a_coil(rt: HostRuntime) -> Result<(), Fail> {
    let cases = [
        Case {
            study: COIL,
            spectrum: FIFTH,
            levels: None,
            answer: (
                3,
                "voltage,B1,s,5,8.6602,8.6603,3.0000,fail\nthd,B1,s,8.6602,8.6603,5.0000,fail\nsummary,limits,0,2,0\nend,3\n",
                "",
            ),
        },
        Case {
            study: COIL,
            spectrum: "order,bus,re,im\n5,B1,0,0\n",
            levels: None,
            answer: (
                0,
                "voltage,B1,s,5,0.0000,0.0000,3.0000,pass\nthd,B1,s,0.0000,0.0000,5.0000,pass\nsummary,limits,2,0,0\nend,0\n",
                "",
            ),
        },
        Case {
            study: COIL,
            spectrum: "order,bus,re,im\n",
            levels: None,
            answer: (
                0,
                "thd,B1,s,0.0000,0.0000,5.0000,pass\nsummary,limits,1,0,0\nend,0\n",
                "",
            ),
        },
    ];
    assert_cases(&rt, rt.alloc(), &cases)
}

/// The current is exactly 4 percent, which is the limit below a ratio of 20: no bound tells it from either side.
#[test]
fn a_point_of_common_coupling(rt: HostRuntime) -> Result<(), Fail> {
    let cases = [
        Case {
            study: BELOW_20,
            spectrum: FIFTH,
            levels: None,
            answer: (
                4,
                "voltage,B1,s,5,0.8660,0.8661,3.0000,pass\nthd,B1,s,0.8660,0.8661,5.0000,pass\ncurrent,P1,s,5,3.9999,4.0001,4.0000,undecided\ntdd,P1,s,3.9999,4.0001,5.0000,pass\nsummary,limits,3,0,1\nend,4\n",
                "",
            ),
        },
        Case {
            study: AT_20,
            spectrum: FIFTH,
            levels: None,
            answer: (
                0,
                "voltage,B1,s,5,0.8660,0.8661,3.0000,pass\nthd,B1,s,0.8660,0.8661,5.0000,pass\ncurrent,P1,s,5,3.9999,4.0001,7.0000,pass\ntdd,P1,s,3.9999,4.0001,8.0000,pass\nsummary,limits,4,0,0\nend,0\n",
                "",
            ),
        },
    ];
    assert_cases(&rt, rt.alloc(), &cases)
}

#[test]
fn planning_levels(rt: HostRuntime) -> Result<(), Fail> {
    let cases = [
        Case {
            study: COIL,
            spectrum: FIFTH,
            levels: Some("bus,order,percent\nB1,5,8.7\nB1,thd,9\n"),
            answer: (
                0,
                "voltage,B1,s,5,8.6602,8.6603,8.7000,pass\nthd,B1,s,8.6602,8.6603,9.0000,pass\nsummary,limits,2,0,0\nend,0\n",
                "",
            ),
        },
        Case {
            study: COIL,
            spectrum: FIFTH,
            levels: Some("bus,order,percent\nB1,5,8.6602\n"),
            answer: (
                3,
                "voltage,B1,s,5,8.6602,8.6603,8.6602,undecided\nthd,B1,s,8.6602,8.6603,5.0000,fail\nsummary,limits,0,1,1\nend,3\n",
                "",
            ),
        },
        Case {
            study: COIL,
            spectrum: FIFTH,
            levels: Some("bus,order,percent\n"),
            answer: (
                3,
                "voltage,B1,s,5,8.6602,8.6603,3.0000,fail\nthd,B1,s,8.6602,8.6603,5.0000,fail\nsummary,limits,0,2,0\nend,3\n",
                "",
            ),
        },
    ];
    assert_cases(&rt, rt.alloc(), &cases)
}
