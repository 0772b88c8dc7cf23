use crate::{Lines, reports_text};
use frame_findings::{Cut, EdgeReport, Finding};
use rate_table::Rate;
use std::test::Fail;

#[test]
fn lines_of_reports(rt: HostRuntime) -> Result<(), Fail> {
    let reports = [
        (40, Finding::NoMatch),
        (
            100,
            Finding::Good {
                rate: Rate::R36,
                length: 100,
                reserved: 0,
            },
        ),
        (500, Finding::BadParity),
        (600, Finding::BadRate { pattern: 0 }),
        (700, Finding::ZeroLength),
        (16777215, Finding::Short),
    ];
    let reports = reports.map(|(place, finding)| EdgeReport { place, finding });
    let text = reports_text(rt.alloc(), &reports)?;
    let lines =
        b"edge 40 nomatch\nedge 100 header 36 100 0\nedge 500 badparity\nedge 600 badrate 0\nedge 700 zerolength\nedge 16777215 short\n";
    assert_eq!(rt; text.as_slice(), lines.as_slice());
    Ok(())
}

#[test]
fn lines_of_findings(rt: HostRuntime) -> Result<(), Fail> {
    let mut lines = Lines::open(rt.alloc())?;
    lines.put_frame(8000, Rate::R54, 2, 1, &[0xAA, 0x0F]);
    lines.put_cut(Cut {
        start: 896,
        have: 879,
        need: 880,
    });
    assert_eq!(rt;
        lines.into_vec().as_slice(),
        b"frame 8000 54 2 1 aa0f\ncut 896 879 880\n".as_slice()
    );
    Ok(())
}
