//! A law of the tool's limits. Its body is empty.
ghost use Rattle.wiz_cli.specs.Limits.{AreTheLimits};

/// The limits of the tool are these numbers.
pub fn limits_are()
    ensures { AreTheLimits }
{}
