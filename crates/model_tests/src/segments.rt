use reg_model::{Member, Span};
use segment_array::{Segment, Spot, put_into, segment_below, segment_hit, segments_for, spot};
use std::test::Fail;

#[test]
fn one_member_in_an_empty_segment(rt: HostRuntime) -> Result<(), Fail> {
    let Some(span) = Span::new(0x1000, 0x10) else {
        panic!(rt; "a span")
    };
    let member = Member { span, payload: 7 };
    let empty = Segment::from_slice(&[]);
    assert!(rt; segment_below(&empty, 0x1000) && segment_hit(&empty, 0x1000).is_none());
    let (segment, handed) = put_into(&empty, &member);
    assert!(rt; handed.is_none() && segment.members().len() == 1);
    assert_eq!(rt; segment_hit(&segment, 0x100f), Some(member));
    assert!(rt; segment_hit(&segment, 0x1010).is_none());
    assert!(rt; segment_below(&segment, 0xfff) && !segment_below(&segment, 0x1000));
    Ok(())
}

#[test]
fn sixteen_members_fill_a_segment(rt: HostRuntime) {
    assert_eq!(rt;
        spot(16),
        Spot {
            segment: 1,
            place: 0
        }
    );
    assert_eq!(rt;
        spot(15),
        Spot {
            segment: 0,
            place: 15
        }
    );
    assert_eq!(rt; segments_for(17), 2);
    assert_eq!(rt; segments_for(16), 1);
    assert_eq!(rt; segments_for(0), 0);
}
