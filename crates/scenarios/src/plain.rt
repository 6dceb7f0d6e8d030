// The plain world, in the lines of a scenario.

/// The directories of a machine with the kernel 6.1.0, and the source of the package hello.
pub const NODES: &str = "\
dir /var/lib/dkms
dir /usr/src
dir /lib/modules/6.1.0
dir /boot
dir /etc/kernel
dir /usr/lib/kernel
file /usr/src/hello-1.0/hello.c text\\n
file /usr/src/hello-1.0/dkms.conf PACKAGE_NAME=\"hello\"\\nPACKAGE_VERSION=\"1.0\"\\nBUILT_MODULE_NAME[0]=\"hello\"\\nDEST_MODULE_LOCATION[0]=\"/updates/dkms\"\\nAUTOINSTALL=\"yes\"\\n
";

/// What builds hello for that kernel: make, strip and depmod.
pub const CHILDREN: &str = "\
child /bin/sh -c make\\s-C\\s/lib/modules/6.1.0/build\\sM=/var/lib/dkms/hello/1.0/build
 code 0
 write /var/lib/dkms/hello/1.0/build/hello.ko KO1
child strip -g hello.ko
 code 0
 write /var/lib/dkms/hello/1.0/build/hello.ko K1
child depmod -b / -a 6.1.0
 code 0
 write /lib/modules/6.1.0/modules.dep DEP
";
