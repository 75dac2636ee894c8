// The numbers of the statuses.
use pyr_top::Status;

#[test]
fn each_status_has_its_number(rt: HostRuntime) {
    for (status, code) in &[
        (Status::Ok, 0),
        (Status::Usage, 2),
        (Status::Source, 3),
        (Status::Sink, 4),
        (Status::Memory, 5),
        (Status::Text, 6),
        (Status::Limit, 7),
        (Status::Names, 8),
        (Status::Cycle, 9),
        (Status::Law, 10),
        (Status::Stuck, 11),
        (Status::Leftover, 12),
    ] {
        assert_eq!(rt; status.code(), *code);
    }
}
