//! Catalogs of hosts that the tables of several test crates share.
#![tactic(auto)]

mod made;
mod texts;

pub use made::catalog_of;
pub use texts::{
    APP_TARBALL, BACKUP_CRON, CONFD, DOCKER_HOST, MAIL_RELAY, MOTD_HOSTS, NGINX_PROFILE,
    POSTGRES_MANUAL, SSHD, STAGES, USERS, VALUES, VIRTUAL_EXPORTED, WEBROOT_EPP,
};
