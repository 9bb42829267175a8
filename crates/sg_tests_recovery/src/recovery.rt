ghost use Rattle.sg_recovery.specs.SmallLogs.{AllStandFor, small_logs};

// Tells a proof what the small logs stand for, which the check computes.
fn logs_stand()
    ensures { AllStandFor small_logs }
{}

#[test]
fn small_logs_stand_for_what_was_kept() {
    logs_stand();
}
